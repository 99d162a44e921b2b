use std::test::Fail;
use test_volumes::Refusing;
use vol_layout::{PlaceForm, ReserveError, Reserved};

// How a text is read: whether two places are reserved, or that it names none.
fn told(rt: &HostRuntime, text: &str, form: PlaceForm, places: [u32; 2]) -> &'static str {
    let Ok(reserved) = Reserved::read(rt.alloc(), text, form) else {
        return "none";
    };
    match (reserved.contains(places[0]), reserved.contains(places[1])) {
        (true, true) => "both",
        (true, false) => "first",
        (false, true) => "second",
        (false, false) => "neither",
    }
}

#[test]
fn sectors_are_named_by_track_and_sector(rt: HostRuntime) -> Result<(), Fail> {
    assert_eq!(rt; told(&rt, "3/13,4/0", PlaceForm::Sector, [61, 64]), "both");
    assert_eq!(rt;
        told(&rt, "3/13,4/0", PlaceForm::Sector, [60, 62]),
        "neither"
    );
    assert_eq!(rt;
        told(&rt, "34/15,34/15", PlaceForm::Sector, [559, 0]),
        "first"
    );
    assert_eq!(rt; told(&rt, "0/0", PlaceForm::Sector, [559, 0]), "second");
    Ok(())
}

#[test]
fn blocks_are_named_by_their_numbers(rt: HostRuntime) -> Result<(), Fail> {
    assert_eq!(rt; told(&rt, "10", PlaceForm::Block, [10, 11]), "first");
    assert_eq!(rt; told(&rt, "0,65535", PlaceForm::Block, [0, 65535]), "both");
    Ok(())
}

#[test]
fn words_that_name_no_sector(rt: HostRuntime) -> Result<(), Fail> {
    for text in [
        "", "3", "3/", "/3", "3/16", "35/0", "3/03", "+3/1", "3/1,", ",3/1", "3/1, 4/0", "3/1/0",
    ] {
        assert_eq!(rt; told(&rt, text, PlaceForm::Sector, [0, 0]), "none");
    }
    Ok(())
}

#[test]
fn words_that_name_no_block(rt: HostRuntime) -> Result<(), Fail> {
    for text in [
        "",
        "65536",
        "007",
        "-1",
        "1/2",
        "1;2",
        "99999999999999999999",
    ] {
        assert_eq!(rt; told(&rt, text, PlaceForm::Block, [0, 0]), "none");
    }
    Ok(())
}

// What is answered where the block after `before` others is refused, and how many were asked.
fn refused(rt: &HostRuntime, before: u64) -> (&'static str, u64) {
    let heap = Refusing::one(rt.alloc(), before);
    let answer = match Reserved::read(&heap, "3/13,4/0", PlaceForm::Sector) {
        Ok(_) => "read",
        Err(ReserveError::Syntax) => "no list",
        Err(ReserveError::Memory) => "no memory",
    };
    (answer, heap.asked())
}

#[test]
fn each_refused_block_is_told(rt: HostRuntime) -> Result<(), Fail> {
    for before in 1..3 {
        assert_eq!(rt; refused(&rt, before), ("no memory", before + 1));
    }
    // The first block is room that the list of words can do without.
    assert_eq!(rt; refused(&rt, 0), ("read", 4));
    assert_eq!(rt; refused(&rt, 3), ("read", 3));
    Ok(())
}
