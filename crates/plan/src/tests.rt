// The examples of docs/FORMATS.md.
use crate::fault::PlanFault;
use crate::read::read_plan;
use line::{Place, Refusal};
use std::test::Fail;

/// The number and the offset of the refusal, or 0 and the plan's length.
fn answer(bytes: &[u8]) -> (u8, usize) {
    match read_plan(bytes) {
        Ok(_) => (0, bytes.len()),
        Err(fault) => {
            let refusal = Refusal::from(fault);
            let Place::Offset(at) = refusal.place else {
                return (refusal.number, 99);
            };
            (refusal.number, at)
        }
    }
}

#[test]
fn examples(rt: HostRuntime) {
    assert_eq!(rt; answer(b"\x03ABC\x01\x00\x03Oh!"), (0, 10));
    assert_eq!(rt; answer(b"\x03ABC\x01\x00\x03Oh"), (1, 9));
    assert_eq!(rt; answer(b"\x03ABC\x01\x00\x03Oh!\x00"), (3, 10));
    assert_eq!(rt; answer(b"\x03ABC\x01\x03\x03Oh!"), (2, 5));
    assert_eq!(rt; answer(b"\x03ABC\x01\x00\x41Oh!"), (2, 6));
    assert_eq!(rt; answer(b""), (1, 0));
    assert_eq!(rt; answer(b"\x09"), (2, 0));
    assert_eq!(rt; answer(b"\x03ABA"), (2, 3));
    assert_eq!(rt; answer(b"\x02A["), (2, 2));
    assert_eq!(rt; answer(b"\x01A\x11"), (2, 2));
}

#[test]
fn parts(rt: HostRuntime) {
    let Ok(plan) = read_plan(b"\x03ABC\x01\x00\x03Oh!") else {
        panic!(rt; "this plan is read");
    };
    assert_eq!(rt; plan.letters.len(), 3);
    assert_eq!(rt; plan.letters.as_slice(), b"ABC".as_slice());
    let [page] = plan.pages.as_slice() else {
        panic!(rt; "it has one page");
    };
    assert_eq!(rt; (page.home, page.length, page.text), (0, 3, 7));
}

#[test]
fn names(rt: HostRuntime) -> Result<(), Fail> {
    let alloc = rt.alloc();
    assert!(rt; PlanFault::Short(9).to_string(alloc)?.as_str() == "SHORT");
    assert!(rt; PlanFault::Value(2).to_string(alloc)?.as_str() == "VALUE");
    assert!(rt; PlanFault::Long(10).to_string(alloc)?.as_str() == "LONG");
    Ok(())
}
