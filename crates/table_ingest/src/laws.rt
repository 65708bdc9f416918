//! Laws over tables, each the contract of a function that does nothing.

ghost use Rattle.table_ingest.specs.Laws.{BaseOrFault, BasesAreOne, BasesAreValid, FaultsAreFirst, FaultsAreOne, FewRows, RecordsAreOne, RecordsAreThere, TextsAreRead};

/// Each text has its records, and no others.
pub fn every_text_has_records()
    ensures some { RecordsAreThere }
    ensures only { RecordsAreOne }
{}

/// Any two texts either spell one base, or have one first fault.
pub fn two_texts_mean_one_thing()
    ensures read { TextsAreRead }
    ensures either { BaseOrFault }
    ensures base { BasesAreOne }
    ensures fault { FaultsAreOne }
{}

/// What two texts spell is a base of the dataset, and its edges ascend by pair.
pub fn bases_are_valid()
    ensures { BasesAreValid }
{}

/// What two texts spell has at most as many supervoxels as the first has bytes, and at most as many edges
/// as the second.
pub fn rows_are_few()
    ensures { FewRows }
{}

/// The fault of two tables is that of the first record that means nothing: one of the supervoxel table, or,
/// where that has none, one of the edge table. The records before it mean something, and its cause is the
/// first that holds beside them.
pub fn faults_are_first()
    ensures { FaultsAreFirst }
{}
