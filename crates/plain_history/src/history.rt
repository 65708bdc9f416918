//! A log, entry by entry, and its records.

use crate::kinds::{
    Asker, change, chunk, edge, edited, header, ingest, item, link, node, supervoxel,
};
use crate::members::{
    Member, children_of, chunks_of, component, is_touched, least, members_of, roots_among,
    set_node, touched_nodes,
};
use crate::rows::{Rows, Subject, of};
use node_ids::NodeId;
use op_model::{AskedPair, Base, Changed, Dataset, Edge, Edit, Weight};
use std::alloc::{AllocError, Global};

/// A log and its records.
#[derive(Drop)]
pub struct History {
    /// Its records, in the order of their places.
    pub rows: Rows,
    /// The roots that the last entry retired, ascending.
    pub retired: Vec<u64>,
    /// The roots that it made, ascending.
    pub made: Vec<u64>,
    /// Its timestamp in milliseconds.
    pub last: u64,
    /// How many entries there are.
    pub entries: u64,
    // the affinity of an edge that a merge adds
    affinity: u32,
    // its edges with their states
    edges: Vec<Edge>,
    // its supervoxels in all layers
    members: Vec<Member>,
    // the chunks that hold a supervoxel, ascending; the last one is that of the top layer
    chunks: Vec<u64>,
}

// the records of a base's header, supervoxels and chunks
fn base_rows(
    alloc: Global,
    dataset: &Dataset,
    svs: &[NodeId],
    chunks: &[u64],
) -> Result<Rows, AllocError> {
    let mut rows = Rows::new(alloc);
    rows.push(header(dataset, svs.len() as u64, chunks.len() as u64))?;
    for sv in svs {
        rows.push(supervoxel(sv.0))?;
    }
    for id in chunks {
        rows.push(chunk(*id))?;
    }
    Ok(rows)
}

// puts the records of a base's edges
fn put_edges(rows: &mut Rows, edges: &[Edge]) -> Result<(), AllocError> {
    for known in edges {
        rows.push(edge(known, 0))?;
    }
    Ok(())
}

// the edges of a base by their pairs
fn ordered_edges(alloc: Global, base: &Base) -> Result<Vec<Edge>, AllocError> {
    let mut list = Vec::new(alloc);
    for edge in base.edges.list.as_slice() {
        list.push(*edge)?;
    }
    list.sort_unstable_by_key(|edge: &Edge| (edge.pair.a.0, edge.pair.b.0));
    Ok(list)
}

// gives the edge of a pair its state; whether there is one
fn set_state(edges: &mut [Edge], c: &Changed) -> bool {
    for known in edges {
        if known.pair == c.pair {
            known.active = c.active;
            return true;
        }
    }
    false
}

// a log without entries
fn begun(alloc: Global, dataset: &Dataset, base: &Base) -> Result<History, AllocError> {
    let svs = base.supervoxels.list.as_slice();
    let members = members_of(alloc, dataset, svs)?;
    let chunks = chunks_of(alloc, members.as_slice())?;
    let edges = ordered_edges(alloc, base)?;
    let rows = base_rows(alloc, dataset, svs, chunks.as_slice())?;
    Ok(History {
        rows,
        retired: Vec::new(alloc),
        made: Vec::new(alloc),
        last: 0,
        entries: 0,
        affinity: dataset.merge_affinity,
        edges,
        members,
        chunks,
    })
}

impl History {
    /// The log of a base with the entry of its ingest at a time in milliseconds.
    pub fn new(
        alloc: Global,
        dataset: &Dataset,
        base: &Base,
        at: u64,
    ) -> Result<History, AllocError> {
        let mut history = begun(alloc, dataset, base)?;
        history.put_ingest(alloc, at)?;
        Ok(history)
    }

    // puts the entry of the ingest
    fn put_ingest(&mut self, alloc: Global, at: u64) -> Result<(), AllocError> {
        put_edges(&mut self.rows, self.edges.as_slice())?;
        self.put_nodes(alloc, &[])?;
        self.rows.push(ingest(at))?;
        self.last = at;
        self.entries = 1;
        Ok(())
    }

    /// Puts the entry of an edit which changes these pairs.
    pub fn put(
        &mut self,
        alloc: Global,
        edit: &Edit,
        changed: &[Changed],
        asker: Asker,
    ) -> Result<(), AllocError> {
        let retired = touched_nodes(alloc, self.members.as_slice(), changed)?;
        self.change_edges(changed)?;
        self.put_nodes(alloc, changed)?;
        self.put_items(edit)?;
        self.put_changes(changed)?;
        self.put_entry(edit, asker, retired.as_slice())?;
        self.retired = roots_among(alloc, retired.as_slice(), self.top())?;
        Ok(())
    }

    // the chunk of the top layer
    fn top(&self) -> u64 {
        match self.chunks.last() {
            Some(id) => *id,
            None => 0,
        }
    }

    // puts the record of an entry which retires these nodes
    fn put_entry(&mut self, edit: &Edit, asker: Asker, retired: &[u64]) -> Result<(), AllocError> {
        let place = self.rows.list.len() as u64;
        self.rows.push(edited(self.entries, asker, edit))?;
        for id in retired {
            self.rows.retire(*id, place);
        }
        self.last = asker.at;
        self.entries = self.entries.wrapping_add(1);
        Ok(())
    }

    /// The nodes of a supervoxel from layer 2 to its root.
    pub fn path(&self, alloc: Global, sv: u64) -> Result<Vec<u64>, AllocError> {
        let mut list = Vec::new(alloc);
        for m in self.members.as_slice() {
            if m.sv == sv {
                list.push(m.node)?;
            }
        }
        Ok(list)
    }

    /// The root of a supervoxel.
    pub fn root(&self, sv: u64) -> u64 {
        let mut root = 0;
        for m in self.members.as_slice() {
            if m.sv == sv {
                root = m.node;
            }
        }
        root
    }

    /// The entry record that retired a node; 0 if none did, or there is no such node.
    pub fn retired_by(&self, id: u64) -> u64 {
        let place = self.rows.first_in(of(Subject::Id, id));
        match self.rows.list.get(place as usize) {
            Some(row) => row.pointers[2],
            None => 0,
        }
    }

    // gives pairs their states; those that are no edges yet get records
    fn change_edges(&mut self, changed: &[Changed]) -> Result<(), AllocError> {
        for c in changed {
            if !set_state(self.edges.as_mut_slice(), c) {
                self.add_edge(c)?;
            }
        }
        Ok(())
    }

    // adds an edge of a pair
    fn add_edge(&mut self, c: &Changed) -> Result<(), AllocError> {
        let mut added = Edge {
            pair: c.pair,
            weight: Weight::Affinity(self.affinity),
            active: false,
        };
        self.rows.push(edge(&added, self.entries))?;
        added.active = c.active;
        self.edges.push(added)?;
        Ok(())
    }

    // puts the nodes of the next entry and the links of their children
    fn put_nodes(&mut self, alloc: Global, changed: &[Changed]) -> Result<(), AllocError> {
        let mut made = Vec::new(alloc);
        for k in 0..self.chunks.len() {
            if let Some(place) = self.chunks.get(k) {
                let place = *place;
                self.put_chunk(alloc, place, changed, &mut made)?;
            }
        }
        self.put_links(alloc, made.as_slice())?;
        self.made = roots_among(alloc, made.as_slice(), self.top())?;
        Ok(())
    }

    // the nodes of one chunk, by their least leaves
    fn put_chunk(
        &mut self,
        alloc: Global,
        place: u64,
        changed: &[Changed],
        made: &mut Vec<u64>,
    ) -> Result<(), AllocError> {
        for k in 0..self.members.len() {
            if let Some(found) = self.members.get(k) {
                let m = *found;
                if m.chunk == place {
                    self.put_member(alloc, &m, changed, made)?;
                }
            }
        }
        Ok(())
    }

    // the node whose least leaf a member is, if the next entry makes it
    fn put_member(
        &mut self,
        alloc: Global,
        m: &Member,
        changed: &[Changed],
        made: &mut Vec<u64>,
    ) -> Result<(), AllocError> {
        let leaves = component(alloc, self.members.as_slice(), self.edges.as_slice(), m)?;
        let leaves = leaves.as_slice();
        let is_new = self.entries == 0 || is_touched(changed, leaves);
        if is_new && least(leaves, m.sv) == m.sv {
            self.put_node(m, leaves, made)?;
        }
        Ok(())
    }

    // a node with these leaves, of which a member is the least
    fn put_node(
        &mut self,
        m: &Member,
        leaves: &[u64],
        made: &mut Vec<u64>,
    ) -> Result<(), AllocError> {
        let used = self.rows.count_in(of(Subject::NodeIn, m.chunk));
        let id = m.chunk.wrapping_add(used).wrapping_add(1);
        self.rows.push(node(id, m.chunk, m.sv, self.entries))?;
        set_node(self.members.as_mut_slice(), m.chunk, leaves, id);
        made.push(id)?;
        Ok(())
    }

    // the links of some nodes' children, by the nodes
    fn put_links(&mut self, alloc: Global, ids: &[u64]) -> Result<(), AllocError> {
        for id in ids {
            let children = children_of(alloc, self.members.as_slice(), *id)?;
            self.put_children(*id, children.as_slice())?;
        }
        Ok(())
    }

    fn put_children(&mut self, id: u64, children: &[u64]) -> Result<(), AllocError> {
        for child in children {
            let place = self.rows.first_in(of(Subject::Id, *child));
            self.rows.push(link(*child, place, id, self.entries))?;
        }
        Ok(())
    }

    // the changes of the next entry
    fn put_changes(&mut self, changed: &[Changed]) -> Result<(), AllocError> {
        for c in changed {
            self.rows.push(change(c, self.entries))?;
        }
        Ok(())
    }

    // the ids of a request
    fn put_items(&mut self, edit: &Edit) -> Result<(), AllocError> {
        match edit {
            Edit::Merge { pairs } => self.put_pairs(pairs.list.as_slice()),
            Edit::Split { sources, sinks } => {
                self.put_marks(sources.list.as_slice(), 1)?;
                self.put_marks(sinks.list.as_slice(), 2)
            }
            Edit::Undo { .. } => Ok(()),
            Edit::Redo { .. } => Ok(()),
        }
    }

    fn put_pairs(&mut self, pairs: &[AskedPair]) -> Result<(), AllocError> {
        for pair in pairs {
            self.rows.push(item(pair.a.0, 1, self.entries))?;
            self.rows.push(item(pair.b.0, 2, self.entries))?;
        }
        Ok(())
    }

    fn put_marks(&mut self, marks: &[NodeId], side: u64) -> Result<(), AllocError> {
        for mark in marks {
            self.rows.push(item(mark.0, side, self.entries))?;
        }
        Ok(())
    }
}
