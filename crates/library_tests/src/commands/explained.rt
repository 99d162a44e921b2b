// Texts and what is explained of them.
use explanations::{Explanation, FINDINGS, Overheard, REFUSALS, explained};
use std::alloc::{AllocError, Global};
use std::io::Write;
use std::test::Fail;

/// Fronts, and behind them those of the rows of a table that a text asks for.
fn with_fronts(
    alloc: Global,
    mut fronts: Vec<&'static str>,
    table: &'static [Explanation],
    text: &str,
) -> Result<Vec<&'static str>, AllocError> {
    for row in explained(alloc, table, text.as_bytes())?.as_slice() {
        fronts.push(row.front)?;
    }
    Ok(fronts)
}

/// The fronts of the refusals that a text asks for.
fn refusals(alloc: Global, text: &str) -> Result<Vec<&'static str>, AllocError> {
    with_fronts(alloc, Vec::new(alloc), &REFUSALS, text)
}

/// Fronts, and behind them those of the findings that a text asks for.
fn with_findings(
    alloc: Global,
    fronts: Vec<&'static str>,
    text: &str,
) -> Result<Vec<&'static str>, AllocError> {
    with_fronts(alloc, fronts, &FINDINGS, text)
}

/// The fronts of the rows that a text asks for.
fn fronts(alloc: Global, text: &str) -> Result<Vec<&'static str>, AllocError> {
    with_findings(alloc, refusals(alloc, text)?, text)
}

/// Whether each of the rows, and no other, is asked for by its own front, and ends its sentences.
fn rows_stand_for_themselves(alloc: Global, rows: &[Explanation]) -> Result<bool, AllocError> {
    for row in rows {
        let has_ends = row.meaning.ends_with('.') && row.advice.ends_with('.');
        if !has_ends || !asks_for(alloc, row.front, row.front)? {
            return Ok(false);
        }
    }
    Ok(true)
}

/// Whether a text asks for the row of the words, and for no other.
fn asks_for(alloc: Global, text: &str, front: &str) -> Result<bool, AllocError> {
    Ok(fronts(alloc, text)?.as_slice() == [front].as_slice())
}

/// Whether a text asks for no row.
fn asks_for_none(alloc: Global, text: &str) -> Result<bool, AllocError> {
    Ok(fronts(alloc, text)?.is_empty())
}

#[test]
fn each_row_is_told_once(rt: HostRuntime) -> Result<(), Fail> {
    let text = "FAULT Shared 3/14\nFAULT Shared 3/15\n";
    assert!(rt; asks_for(rt.alloc(), text, "FAULT Shared")?);
    Ok(())
}

#[test]
fn words_count_at_the_front_of_a_line(rt: HostRuntime) -> Result<(), Fail> {
    for text in [
        "",
        "A FAULT Shared 3/14\n",
        "FAULT SharedX\n",
        "FAULT",
        "\n\n",
    ] {
        assert!(rt; asks_for_none(rt.alloc(), text)?);
    }
    for text in [
        "REFUSED Lost 7\n",
        "\nREFUSED Lost",
        "OK\nREFUSED Lost 1\nBESTE\n",
    ] {
        assert!(rt; asks_for(rt.alloc(), text, "REFUSED Lost")?);
    }
    Ok(())
}

#[test]
fn refusals_come_before_findings(rt: HostRuntime) -> Result<(), Fail> {
    let told = fronts(rt.alloc(), "FAULT Shared 3/14\nREFUSED VolumeFull\n")?;
    assert!(rt; told.as_slice() == ["REFUSED VolumeFull", "FAULT Shared"].as_slice());
    Ok(())
}

#[test]
fn each_front_of_a_refusal_has_one_row(rt: HostRuntime) -> Result<(), Fail> {
    assert!(rt; rows_stand_for_themselves(rt.alloc(), REFUSALS.as_slice())?);
    Ok(())
}

#[test]
fn each_front_of_a_finding_has_one_row(rt: HostRuntime) -> Result<(), Fail> {
    assert!(rt; rows_stand_for_themselves(rt.alloc(), FINDINGS.as_slice())?);
    Ok(())
}

/// What the inner writer has, and what was heard, after two writes.
fn heard(alloc: Global, first: &[u8], second: &[u8]) -> Option<(Vec<u8>, Vec<u8>)> {
    let mut text = Overheard::new(alloc, Vec::new(alloc));
    text.write_all(first).ok()?;
    text.write_all(second).ok()?;
    Some((text.inner, text.told?))
}

#[test]
fn a_writer_is_overheard(rt: HostRuntime) -> Result<(), Fail> {
    let Some((inner, told)) = heard(rt.alloc(), b"REFUSED ", b"Check\n") else {
        return Err("a writer failed".into());
    };
    assert!(rt; inner.as_slice() == b"REFUSED Check\n".as_slice());
    assert!(rt; told.as_slice() == b"REFUSED Check\n".as_slice());
    Ok(())
}
