// Words of every form, and what they ask for.
use kq_program_options::{Options, OptionsError};
use kq_value::Memory;
use std::alloc::Global;
use std::fmt::Write;

// Words, each with a `|` behind it, and what they ask for: workers, the number to generate from, and feeds.
const TABLE: [(&str, &str); 36] = [
    ("", "0 None"),
    ("-|", "0 None <->"),
    ("|", "0 None <>"),
    ("--workers|9|", "refused"),
    ("--workers|8|", "8 None"),
    ("--workers|0|", "0 None"),
    ("--workers=3|", "3 None"),
    ("--workers=|", "refused"),
    ("--workers|", "refused"),
    ("--workers|08|", "8 None"),
    ("--workers|+1|", "refused"),
    ("--workers|-1|", "refused"),
    ("--workers|--|3|", "refused"),
    ("--workers|0000001|", "1 None"),
    ("--workers|00000001|", "refused"),
    ("--workers|1|--workers|1|", "refused"),
    ("--workers=1|--workers=2|", "refused"),
    ("--generate=1|--generate|1|", "refused"),
    ("--generate|0|", "refused"),
    ("--generate|1|", "0 Some(1)"),
    ("--generate|1000000|", "0 Some(1000000)"),
    ("--generate|1000001|", "refused"),
    (
        "a|--workers|2|b|--generate=5|c=d|",
        "2 Some(5) <a> <b> <c=d>",
    ),
    ("--|-x|--generate|", "0 None <-x> <--generate>"),
    ("--|--|", "0 None <-->"),
    ("a|--|--workers=1|", "0 None <a> <--workers=1>"),
    ("a|b|c|d|e|f|g|", "0 None <a> <b> <c> <d> <e> <f> <g>"),
    ("a|b|c|d|e|f|g|h|", "refused"),
    ("a|b|a|", "refused"),
    ("a|--|a|", "refused"),
    ("--help|", "refused"),
    ("-h|", "refused"),
    ("--version|", "refused"),
    ("--work|1|", "refused"),
    ("--workers1|", "refused"),
    ("-w1|", "refused"),
];

fn words_of(alloc: Global, row: &str) -> Result<Vec<String>, Memory> {
    let mut words = Vec::new(alloc);
    for word in row.split_terminator('|') {
        words.push(String::from_str(alloc, word)?)?;
    }
    Ok(words)
}

// Whether the options are these.
fn are_told(alloc: Global, options: &Options, want: &str) -> Result<bool, Memory> {
    let mut text = format!(in alloc; "{} {:?}", options.workers, options.generate)?;
    for feed in &options.feeds {
        write!(text, " <{}>", feed.as_str())?;
    }
    Ok(text.as_str() == want)
}

// Whether the words ask for this, or are refused where that is wanted.
fn are_read(alloc: Global, words: &[String], want: &str) -> Result<bool, Memory> {
    match Options::from_words(alloc, words) {
        Ok(options) => are_told(alloc, &options, want),
        Err(error) => Ok(error == OptionsError::Form && want == "refused"),
    }
}

fn asks(alloc: Global, row: &str, want: &str) -> Result<bool, Memory> {
    let words = words_of(alloc, row)?;
    are_read(alloc, words.as_slice(), want)
}

#[test]
fn words_ask_for_what_they_say(rt: HostRuntime) {
    for (row, want) in TABLE {
        let held = asks(rt.alloc(), row, want);
        assert!(rt; held == Ok(true), "at {row}");
    }
}
