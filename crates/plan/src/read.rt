// Reading a whole plan.
ghost use Rattle.std.specs.Prelude.{◌≡◌, ◌+◌, ◌≤◌, [], Ok, IfOk};
ghost use Rattle.std.specs.Result.{result_map_both};
ghost use Rattle.plan.specs.Refusals.{told};
ghost use Rattle.plan.specs.Plans.{and_then, letters_at, sheets_at, planned, down};
ghost use Rattle.plan.specs.Reading.{reads_on};
ghost use Rattle.plan.specs.View.{listed, sheets_of, layout_of};

use crate::fault::PlanFault;
use crate::list::FixedList;
use crate::plan::{Page, Plan};
use crate::reader::Reader;

/// The letters of so many stations.
// Not one function with `read_pages` and a closure: a letter depends on those before it and a page does not, so the clause
// would have to follow the closure from state to state.
#[tactic(auto, using(crate::proofs::OneMore::letter_turns))]
fn read_letters(reader: &mut Reader, stations: u8) -> Result<FixedList<u8, 8>, PlanFault>
    requires { stations ≤ 8 }
    ensures { (result_map_both (λ ls. (listed ls, reader.new.offset)) told result, reader.new.bytes)
        ≡ reads_on (λ bs i. and_then (letters_at stations bs i []) (λ ls. Ok (ls, i + stations))) reader.old }
{
    let mut letters = FixedList::new();
    for _ in 0..stations {
        let letter = reader.letter(letters.as_slice())?;
        letters.push(letter);
    }
    Ok(letters)
}

/// So many pages of a house of so many stations.
#[tactic(auto, using(crate::proofs::OneMore::page_turns))]
fn read_pages(
    reader: &mut Reader,
    stations: u8,
    count: u8,
) -> Result<FixedList<Page, 16>, PlanFault>
    requires { count ≤ 16 }
    ensures { (result_map_both (λ gs. (sheets_of reader.old.bytes gs, reader.new.offset)) told result, reader.new.bytes)
        ≡ reads_on (λ bs i. sheets_at count stations bs i []) reader.old }
{
    let mut pages = FixedList::new();
    for _ in 0..count {
        let page = reader.page(stations)?;
        pages.push(page);
    }
    Ok(pages)
}

/// The plan that the bytes are, or the leftmost fault.
#[tactic(auto, unfolding(crate::specs::Plans::planned))]
pub fn read_plan(bytes: &[u8]) -> Result<Plan, PlanFault>
    ensures exact { result_map_both (layout_of bytes.now) told result ≡ planned bytes.now }
    ensures back { IfOk result (λ p. down (layout_of bytes.now p) ≡ bytes.now) }
{
    let mut reader = Reader::new(bytes);
    let stations = reader.number(1, 8)?;
    let letters = read_letters(&mut reader, stations)?;
    let pages = reader.number(1, 16)?;
    let pages = read_pages(&mut reader, stations, pages)?;
    reader.end()?;
    Ok(Plan { letters, pages })
}
