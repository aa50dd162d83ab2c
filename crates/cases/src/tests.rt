// The worked examples, as tests of the checker.
use contracts::check::check;
use listing::refused::explain;
use listing::table::{decoded, digits};
use std::test::Fail;
use syntax::tree::Mark;
use words::fault::Report;

// The bounds of the first contract, where the text is accepted.
fn bounds(text: &[u8]) -> Option<(u8, u8)> {
    let set = check(text).ok()?;
    Some((set.bound(0, Mark::Out)?, set.bound(0, Mark::In)?))
}

// Number, place and length of the fault; none where the text is accepted.
fn fault(text: &[u8]) -> Option<(u8, usize, usize)> {
    let report = Report::from(check(text).err()?);
    Some((report.number, report.place, report.len))
}

#[test]
fn a_scale_has_bounds_one_and_one(rt: HostRuntime) {
    let text =
        b"contract Scale { out Load block; in Done; state Full { Load! -> Empty; } state Empty { Done? -> Full; } }";
    assert_eq!(rt; bounds(text), Some((1, 1)));
}

#[test]
fn faults_stand_at_their_words(rt: HostRuntime) {
    assert_eq!(rt;
        fault(b"contract A { out M; state S { M! -> S; } }"),
        Some((13, 26, 1))
    );
    assert_eq!(rt;
        fault(b"contract A { out M; in N; state S { M! -> S; N? -> S; } }"),
        Some((11, 45, 1))
    );
    assert_eq!(rt; fault(b""), Some((4, 0, 0)));
}

#[test]
fn sixteen_states_in_a_chain_have_bounds_fifteen_and_none(rt: HostRuntime) {
    let text =
        b"contract C{out M;state A{M!->B;}state B{M!->C;}state C{M!->D;}state D{M!->E;}state E{M!->F;}state F{M!->G;}state G{M!->H;}state H{M!->I;}state I{M!->J;}state J{M!->K;}state K{M!->L;}state L{M!->M;}state M{M!->N;}state N{M!->O;}state O{M!->P;}state P{}}";
    assert_eq!(rt; bounds(text), Some((15, 0)));
}

#[test]
fn a_refusal_shows_file_line_column_and_word(rt: HostRuntime) -> Result<(), Fail> {
    let text = b"contract A {\n  out M;\n  in N;\n  state S { M! -> S; N? -> S; }\n}\n";
    let Err(fault) = check(text) else {
        return Err(Fail::new("accepted"));
    };
    let shown = explain(rt.alloc(), "dig.txt", text, fault.into())?;
    assert_eq!(rt;
        shown.as_str(),
        "fault 11 layer 3 text 0 place 51 length 1\ndig.txt:4:22\n  state S { M! -> S; N? -> S; }\n                     ^\nrefused 11: the mark of this move differs from that of the state's first move\n"
    );
    Ok(())
}

#[test]
fn a_line_spells_bytes_by_pairs_of_its_digits(rt: HostRuntime) -> Result<(), Fail> {
    let bytes = decoded(rt.alloc(), "7b 0AfG9-a6")?;
    assert_eq!(rt; bytes.as_slice(), [0x7b, 0x0f, 0x9a].as_slice());
    Ok(())
}

#[test]
fn the_digits_of_a_line_stand_in_pairs(rt: HostRuntime) -> Result<(), Fail> {
    let found = digits(rt.alloc(), "7b 0AfG9-a6")?;
    assert_eq!(rt; found.as_slice(), b"7b0f9a".as_slice());
    Ok(())
}
