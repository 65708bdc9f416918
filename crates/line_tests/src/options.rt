//! Command lines of options and stems.

use option_words::{Found, OptionRule, read_line};
use std::alloc::Global;
use std::test::Fail;

/// An option that has to stand, and another one.
const OPTIONS: [OptionRule; 2] = [
    OptionRule {
        name: "bits",
        is_required: true,
    },
    OptionRule {
        name: "from",
        is_required: false,
    },
];

/// Whether words are of the grammar of these options, with stems.
fn is_taken(alloc: Global, words: &[&str]) -> bool {
    read_line(alloc, OPTIONS.as_slice(), true, words).is_ok()
}

#[test]
fn words_are_taken(rt: HostRuntime) -> Result<(), Fail> {
    let cases: [(&[&str], bool); 21] = [
        (&["--bits", "8", "s"], true),
        (&["s", "--bits=8", "t"], true),
        (&["s", "--bits=8", "t", "--from", "1", "u"], true),
        (&["--bits=8", "--", "s", "t"], true),
        (&["s", "--bits=a=b", "--"], true),
        (&["--bits=8", "--", "--from"], false),
        (&["--bits=", "s"], false),
        (&["--bits=-1", "s"], false),
        (&["--bits", "-", "s"], false),
        (&["--bits", "8", ""], false),
        (&["--bits", "8", "-"], false),
        (&["--bits", "8"], false),
        (&["s"], false),
        (&["--bits", "8", "--bits", "8", "s"], false),
        (&["--bits", "-1", "s"], false),
        (&["--bits", "--", "s"], false),
        (&["--help", "--bits", "8", "s"], false),
        (&["--bi", "8", "s"], false),
        (&["--stem", "8", "--bits", "8", "s"], false),
        (&["--bits", "8", "--=3", "s"], false),
        (&["s", "--bits"], false),
    ];
    for (words, taken) in cases {
        assert!(rt; is_taken(rt.alloc(), words) == taken, "{words:?}");
    }
    Ok(())
}

/// Whether these are the values of both options and the stems.
fn says(found: &Found, bits: &str, from: Option<&str>, stems: &[&str]) -> bool {
    let Some(all) = found.stems() else {
        return false;
    };
    found.value("bits") == Some(bits) && found.value("from") == from && all == stems
}

#[test]
fn values_and_stems(rt: HostRuntime) -> Result<(), Fail> {
    let words = ["s", "--bits=a=b", "t", "--", "u"];
    match read_line(rt.alloc(), OPTIONS.as_slice(), true, words.as_slice()) {
        Ok(found) => {
            assert!(rt; says(&found, "a=b", None, ["s", "t", "u"].as_slice()));
            Ok(())
        }
        Err(_) => panic!(rt; "words that weren't taken"),
    }
}
