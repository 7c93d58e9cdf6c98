// A whole method, and a whole sheet: the used lifetimes, the answers by parameter, and the edges in listing order, each
// to a lent slice.
ghost use Rattle.std.specs.Prelude.{◌*◌, ◌≤◌, length, take, IfOk};
ghost use Rattle.answers.specs.Lent.{held, room, left};
ghost use Rattle.records.specs.Reading.{most_words};
ghost use Rattle.sheet.specs.Text.{record_count};
ghost use Rattle.sheet.specs.Inner.{Roomy};
ghost use Rattle.borrowing_param.specs.Edges.{edges_in};
ghost use Rattle.methods.specs.Used.{most_used};
ghost use Rattle.borrowing_param.specs.Borrows.{borrow_method, borrow_sheet, BorrowsTo};
ghost use Rattle.borrowing_param.specs.Borrows.{most_listed};
ghost use Rattle.borrowing_param.specs.Consistent.{Consistent};
ghost use Rattle.borrowing_param.specs.InnerSheet.{OfMethod, borrow_by};

use super::method::{FEW_WORDS, MOST_WORDS, judge_sheet};
use super::visitor::BorrowingParamVisitor;
use answers::Refusal;
use lifetimes::{LifetimeEnv, set};
use sheet::{Records, Text};

// How many used lifetimes, parameters and edges there are.
#[derive(Clone, Copy)]
pub struct Borrows {
    pub used: usize,
    pub params: usize,
    pub edges: usize,
}

// What a sheet's wrapper has to hold on to: the used lifetimes, ascending, to the first slice; the number of each
// parameter's answer to the second; the edges, in listing order, to the third. Refused in the papers' order: 10; 1 over
// all records; 13 for 1 in `force`; 2 to 7 at the first bad place; 8; then 9 where a slice is too short. 34, 16 and
// 43,520 words are always enough.
// The three slices stay parameters, here and below, as callers have them.
pub fn borrow_sheet(
    sheet: &[u8],
    used: &mut [usize],
    answers: &mut [usize],
    edges: &mut [usize],
) -> Result<Borrows, Refusal>
    ensures answer { BorrowsTo (borrow_sheet sheet.now (room used) (room answers) (room edges))
        result used answers edges }
    ensures consistent { IfOk result (λ b. Consistent (take b.used (left used)) (take b.params (left answers))
        (edges_in b.edges (left edges))) }
    ensures few { IfOk result (λ b. (b.used ≤ most_used) × (b.edges ≤ most_listed)) }
{
    if sheet.len() <= Text::MIDDLE {
        return borrow_in::<FEW_WORDS>(sheet, used, answers, edges);
    }
    borrow_in::<MOST_WORDS>(sheet, used, answers, edges)
}

// The same with scratch of one size.
fn borrow_in<const N: usize>(
    sheet: &[u8],
    used: &mut [usize],
    answers: &mut [usize],
    edges: &mut [usize],
) -> Result<Borrows, Refusal>
    requires enough { Roomy sheet.now N }
    requires most { N ≤ record_count * most_words }
    ensures { BorrowsTo (borrow_sheet sheet.now (room used) (room answers) (room edges))
        result used answers edges }
{
    let mut scratch = [0usize; N];
    borrow_within(sheet, &mut scratch, used, answers, edges)
}

// The same with scratch that takes the words of any sheet of so many bytes.
fn borrow_within(
    sheet: &[u8],
    scratch: &mut [usize],
    used: &mut [usize],
    answers: &mut [usize],
    edges: &mut [usize],
) -> Result<Borrows, Refusal>
    requires { Roomy sheet.now (length scratch.old) }
    ensures { BorrowsTo (borrow_sheet sheet.now (room used) (room answers) (room edges))
        result used answers edges }
{
    let method = judge_sheet(sheet, scratch)?;
    let records = Records::laid(scratch, method.ends);
    borrow_method(
        method.env,
        records.structs,
        records.params,
        records.output,
        records.force,
        used,
        answers,
        edges,
    )
}

// The same of a method made by hand, from its environment and its records. Refused as the method is (1, 13, 4, 7, 8),
// then by 9. Its eight parameters are what whoever makes a method by hand has, and stay as they were called.
pub fn borrow_method(
    env: LifetimeEnv,
    structs: &[usize],
    params: &[usize],
    output: &[usize],
    force: &[usize],
    used: &mut [usize],
    answers: &mut [usize],
    edges: &mut [usize],
) -> Result<Borrows, Refusal>
    ensures answer { BorrowsTo
        (borrow_method env structs.now params.now output.now force.now
        (room used) (room answers) (room edges)) result used answers edges }
{
    let visitor = BorrowingParamVisitor::new(env, structs, params, output, force)?;
    borrow_by(visitor, structs, params, used, answers, edges)
}

// The same by a visitor.
fn borrow_by(
    visitor: BorrowingParamVisitor,
    structs: &[usize],
    params: &[usize],
    used: &mut [usize],
    answers: &mut [usize],
    edges: &mut [usize],
) -> Result<Borrows, Refusal>
    requires { OfMethod structs.now params.now }
    ensures { BorrowsTo (borrow_by visitor structs.now params.now (room used) (room answers) (room edges))
        result used answers edges }
{
    let members = visitor.used;
    let count = set::count(members);
    if used.len() < count {
        return Err(Refusal::NoRoom);
    }
    let map = visitor.borrow_map(structs, params, answers, edges)?;
    let _ = set::members(members, used);
    Ok(Borrows {
        used: count,
        params: map.params,
        edges: map.edges,
    })
}
