//! The words of the command line.

use pcg_base::NoMemory;
use pcg_words::{Job, RehearseJob, answer_file, read_words, request_file};
use std::alloc::{AllocError, Global};
use std::test::Fail;

/// The words of a rehearsal, of which one may be another.
fn words(alloc: Global, place: usize, word: &str) -> Result<Vec<Vec<u8>>, AllocError> {
    let usual = [
        "rehearse",
        "--bits",
        "8",
        "--grid",
        "2,1,1",
        "--supervoxels",
        "sv.csv",
        "--edges",
        "edges.csv",
        "--merge-affinity",
        "1",
        "--records",
        "2",
        "--clock",
        "1000,10",
        "first",
    ];
    let mut list = Vec::new(alloc);
    for k in 0..usual.len() {
        let text = if k == place { word } else { usual[k] };
        list.push(Vec::from_slice(alloc, text.as_bytes())?)?;
    }
    Ok(list)
}

/// The numbers of a job, in the order of the words.
fn numbers(job: &RehearseJob) -> [u64; 8] {
    [
        job.bits,
        job.grid.nx() as u64,
        job.grid.ny() as u64,
        job.grid.nz() as u64,
        job.merge_affinity,
        job.records,
        job.clock.start,
        job.clock.step,
    ]
}

/// Whether the names of a job are those of its words.
fn has_its_names(alloc: Global, job: &RehearseJob) -> Result<bool, NoMemory> {
    for stem in &job.stems.list {
        if request_file(alloc, stem)?.text.as_str() != "first.req" {
            return Ok(false);
        }
        if answer_file(alloc, stem)?.text.as_str() != "first.ans" {
            return Ok(false);
        }
    }
    Ok(job.supervoxels.text.as_str() == "sv.csv" && job.edges.text.as_str() == "edges.csv")
}

#[test]
fn the_words_of_a_rehearsal(rt: HostRuntime) -> Result<(), Fail> {
    let usual = words(rt.alloc(), 99, "")?;
    match read_words(rt.alloc(), usual.as_slice())? {
        Job::Rehearse(job) => {
            assert!(rt; numbers(&job) == [8, 2, 1, 1, 1, 2, 1000, 10]);
            assert!(rt; has_its_names(rt.alloc(), &job)?);
            Ok(())
        }
        Job::Make(_) | Job::Trial(_) => panic!(rt; "no rehearsal"),
    }
}

#[test]
fn values_of_all_forms(rt: HostRuntime) -> Result<(), Fail> {
    for (place, word, is_fine) in [
        (0, "serve", false),
        (1, "--bit", false),
        (2, "16", true),
        (2, "17", false),
        (2, "08", false),
        (4, "256,256,256", true),
        (4, "257,1,1", false),
        (4, "2,1", false),
        (6, "a b/ü.csv", true),
        (6, "", false),
        (6, "edges.csv", false),
        (6, "first.req", false),
        (10, "4294967295", true),
        (10, "4294967296", false),
        (12, "16777216", true),
        (12, "1", false),
        (14, "4611686018427387903,0", true),
        (14, "4611686018427387904,0", false),
        (15, "-first", false),
    ] {
        let list = words(rt.alloc(), place, word)?;
        assert!(rt;
            read_words(rt.alloc(), list.as_slice()).is_ok() == is_fine,
            "{word}"
        );
    }
    Ok(())
}

/// Whether the words of a text, which stand between spaces, are a job.
fn is_job(alloc: Global, text: &str) -> Result<bool, AllocError> {
    let mut list = Vec::new(alloc);
    for word in text.split(' ') {
        list.push(Vec::from_slice(alloc, word.as_bytes())?)?;
    }
    Ok(read_words(alloc, list.as_slice()).is_ok())
}

/// Options in any order and form, several stems, a schedule, and what two files may not share.
#[test]
fn words_in_any_order(rt: HostRuntime) -> Result<(), Fail> {
    let cases = [
        (
            "rehearse s --bits=8 --grid 2,1,1 --supervoxels a t --edges=b --merge-affinity 1 --clock 1,1 -- u",
            true,
        ),
        (
            "rehearse --schedule c --bits 8 --grid 2,1,1 --supervoxels a --edges b --merge-affinity 1 --clock 1,1 s",
            true,
        ),
        (
            "rehearse --bits 8 --grid 2,1,1 --supervoxels a --edges b --merge-affinity 1 --clock 1,1 -- -s",
            false,
        ),
        (
            "rehearse --bits 8 --bits 8 --grid 2,1,1 --supervoxels a --edges b --merge-affinity 1 --clock 1,1 s",
            false,
        ),
        (
            "rehearse --bits 8 --grid 2,1,1 --supervoxels a --edges b --merge-affinity 1 --clock 1,1",
            false,
        ),
        (
            "rehearse --bits 8 --grid 2,1,1 --supervoxels a --edges b --merge-affinity 1 --clock 1,1 s s",
            false,
        ),
        (
            "rehearse --bits 8 --grid 2,1,1 --supervoxels a --edges s.ans --merge-affinity 1 --clock 1,1 s",
            false,
        ),
        (
            "rehearse --schedule a --bits 8 --grid 2,1,1 --supervoxels a --edges b --merge-affinity 1 --clock 1,1 s",
            false,
        ),
        (
            "--bits 8 --grid 2,1,1 --supervoxels a --edges b --merge-affinity 1 --clock 1,1 s",
            false,
        ),
        (
            "make s --from 1 --size 20000 --requests 50 --bits 8 --grid 8,8,8 --supervoxels a --edges b t",
            true,
        ),
        (
            "make --from 18446744073709551615 --size 255 --requests 0 --bits 16 --grid 1,1,1 --supervoxels a --edges b s",
            true,
        ),
        (
            "make --from 1 --size 256 --requests 0 --bits 16 --grid 1,1,1 --supervoxels a --edges b s",
            false,
        ),
        (
            "make --from 18446744073709551616 --size 1 --requests 0 --bits 16 --grid 1,1,1 --supervoxels a --edges b s",
            false,
        ),
        (
            "make --from 1 --size 1 --requests 0 --bits 16 --grid 1,1,1 --supervoxels a --edges s.ans s",
            false,
        ),
        (
            "make --from 1 --size 1 --requests 0 --bits 16 --grid 1,1,1 --supervoxels a --edges b --clock 1,1 s",
            false,
        ),
        (
            "trial --from 1 --size 20000 --requests 50 --clients 64 --bits=8 --grid 8,8,8 --merge-affinity 50 --clock 1,1",
            true,
        ),
        (
            "trial --from 1 --size 256 --requests 0 --clients 1 --bits 16 --grid 1,1,1 --merge-affinity 1 --clock 1,1",
            false,
        ),
        (
            "trial --from 1 --size 1 --requests 0 --clients 65 --bits 8 --grid 1,1,1 --merge-affinity 1 --clock 1,1",
            false,
        ),
        (
            "trial --from 1 --size 1 --requests 0 --bits 8 --grid 1,1,1 --merge-affinity 1 --clock 1,1",
            false,
        ),
        (
            "trial --from 1 --size 1 --requests 0 --clients 1 --bits 8 --grid 1,1,1 --merge-affinity 1 --clock 1,1 s",
            false,
        ),
        ("rehearse", false),
        ("", false),
    ];
    for (text, is_fine) in cases {
        assert!(rt; is_job(rt.alloc(), text)? == is_fine, "{text}");
    }
    Ok(())
}
