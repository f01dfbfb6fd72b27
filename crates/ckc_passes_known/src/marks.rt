//! Whether a fact is lost at a place: operations are followed backwards, then the blocks that lead there and to these.
ghost use Rattle.std.specs.Prelude.{◌≡◌, ◌<◌, [], IfOk, OnOk, false, true, length, replicate};
ghost use Rattle.std.specs.Bool.{MatchBool};
ghost use Rattle.ckc_tac.specs.declared.code.Comparison.TheVariants.{LtS};
ghost use Rattle.ckc_tac.specs.declared.code.Operand.TheVariants.{Register};
ghost use Rattle.ckc_flow.specs.Live.{target_of};
ghost use Rattle.ckc_passes.specs.Rewrites.{all_done};
ghost use Rattle.ckc_passes_known.specs.Known.{changes, fact_of};
ghost use Rattle.ckc_passes_known.specs.code.Edges.{AreEdges};
ghost use Rattle.ckc_passes_known.specs.code.Marks.{Ends, Goes, IsAsked, IsGone, IsPut, adds_one as adds_one_of, fact_in as fact_in_of, leads as leads_of};

use crate::edges::Edges;
use crate::facts::{Fact, claim, is_changed, is_same, is_told, not_negative};
use ckc_base::BinOp;
use ckc_passes::target;
use ckc_tac::{Comparison, Operand, TacBlock, TacEnd, TacOp};
use std::alloc::{AllocError, Global};

/// What is asked at a place: whether a fact is lost, or whether a register may be negative that is counted up below a
/// limit.
#[derive(Clone, Copy)]
pub enum Question {
    Stated(Fact),
    Counted(u32, Operand),
}

/// What operations do with a fact: the last of them that matters tells it or ends it, or none matters.
#[derive(Clone, Copy)]
pub enum Way {
    Told,
    Ended,
    Open,
}

/// Whether a fact is not lost in a block, after the first of its operations.
#[cycle(search)]
pub fn is_known(
    alloc: Global,
    blocks: &[TacBlock],
    edges: &Edges,
    question: Question,
    b: usize,
    before: &[TacOp],
) -> Result<bool, AllocError>
    requires there { b < length blocks.now }
    requires edges { AreEdges blocks.now edges.now }
    ensures { IfOk result (λ known. MatchBool known
        (IsGone blocks.now question b (all_done [] before.now) → ⊥)
        (IsGone blocks.now question b (all_done [] before.now))) }
{
    let way = way_back(alloc, blocks, edges, question, b, before)?;
    match way {
        Way::Told => Ok(true),
        Way::Ended => Ok(false),
        Way::Open => {
            let mut marks = vec![in alloc; false; blocks.len()]?;
            let lost = search(alloc, blocks, edges, question, b, marks.as_mut_slice())?;
            Ok(!lost)
        }
    }
}

/// Follows the first operations of a block backwards.
#[cycle(search)]
fn way_back(
    alloc: Global,
    blocks: &[TacBlock],
    edges: &Edges,
    question: Question,
    b: usize,
    before: &[TacOp],
) -> Result<Way, AllocError>
    requires there { b < length blocks.now }
    requires edges { AreEdges blocks.now edges.now }
    ensures { IfOk result (Goes blocks.now question b (all_done [] before.now)) }
{
    let fact = fact_in(question);
    let mut i = before.len();
    'back: while i != 0 {
        let op = &before[i - 1];
        if is_told(op, fact) {
            return Ok(Way::Told);
        }
        if is_changed(target(op), fact) {
            let spared = is_spared(alloc, blocks, edges, question, b, &before[..i - 1], op)?;
            if !spared {
                return Ok(Way::Ended);
            }
        }
        i = i - 1;
    }
    Ok(Way::Open)
}

/// Whether an operation that writes a register of the fact does not end it.
#[cycle(search)]
fn is_spared(
    alloc: Global,
    blocks: &[TacBlock],
    edges: &Edges,
    question: Question,
    b: usize,
    before: &[TacOp],
    op: &TacOp,
) -> Result<bool, AllocError>
    requires there { b < length blocks.now }
    requires edges { AreEdges blocks.now edges.now }
    requires written { changes (target_of op.now) (fact_in_of question) ≡ true }
    ensures { IfOk result (λ spared. MatchBool spared
        (Ends blocks.now question b (all_done [] before.now) op.now → ⊥)
        (Ends blocks.now question b (all_done [] before.now) op.now)) }
{
    match question {
        Question::Stated(_) => Ok(false),
        Question::Counted(r, limit) => {
            if !adds_one(op, r) {
                return Ok(false);
            }
            is_known(
                alloc,
                blocks,
                edges,
                Question::Stated(less(r, limit)),
                b,
                before,
            )
        }
    }
}

/// Whether a fact is lost at the beginning of a block: asks one block after another, where none has a mark yet, until
/// the fact is lost at one or all are asked.
#[cycle(search)]
fn search(
    alloc: Global,
    blocks: &[TacBlock],
    edges: &Edges,
    question: Question,
    b: usize,
    marks: &mut [bool],
) -> Result<bool, AllocError>
    requires there { b < length blocks.now }
    requires edges { AreEdges blocks.now edges.now }
    requires none { marks.old ≡ replicate (length blocks.now) false }
    ensures { IfOk result (λ lost. MatchBool lost
        (IsGone blocks.now question b [])
        (IsGone blocks.now question b [] → ⊥)) }
{
    let mut order = Vec::new(alloc);
    put(b, marks, &mut order)?;
    for i in 0..blocks.len() {
        if i >= order.len() {
            return Ok(false);
        }
        let lost = ask(alloc, blocks, edges, question, order[i], marks, &mut order)?;
        if lost {
            return Ok(true);
        }
    }
    Ok(false)
}

/// Asks the blocks that lead to this one: whether the fact is lost here, or else which blocks are to be asked too.
#[cycle(search)]
fn ask(
    alloc: Global,
    blocks: &[TacBlock],
    edges: &Edges,
    question: Question,
    b: usize,
    marks: &mut [bool],
    order: &mut Vec<usize>,
) -> Result<bool, AllocError>
    requires there { b < length blocks.now }
    requires edges { AreEdges blocks.now edges.now }
    requires long { length marks.old ≡ length blocks.now }
    ensures { IfOk result (λ lost. MatchBool lost
        (IsGone blocks.now question b [])
        (IsAsked blocks.now question b marks.old order.old.items marks.new order.new.items)) }
{
    if b == 0 {
        return Ok(true);
    }
    let mut e = edges.first[b];
    'edges: while e != 0 {
        let edge = edges.all[e - 1];
        if edge.from < blocks.len() {
            let block = &blocks[edge.from];
            if leads(&block.end, fact_in(question), b) {
                let way = way_back(
                    alloc,
                    blocks,
                    edges,
                    question,
                    edge.from,
                    block.ops.as_slice(),
                )?;
                match way {
                    Way::Told => {}
                    Way::Ended => return Ok(true),
                    Way::Open => put(edge.from, marks, order)?,
                }
            }
        }
        e = edge.next;
    }
    Ok(false)
}

/// Puts a block behind those that are to be asked, if it has no mark yet.
fn put(b: usize, marks: &mut [bool], order: &mut Vec<usize>) -> Result<(), AllocError>
    requires { b < length marks.old }
    ensures { OnOk result (IsPut b marks.old order.old.items marks.new order.new.items) }
{
    if !marks[b] {
        order.push(b)?;
        marks[b] = true;
    }
    Ok(())
}

/// Whether control may go from the end of a block to this block, and that does not tell the fact.
fn leads(end: &TacEnd, fact: Fact, b: usize) -> bool
    ensures { result ≡ leads_of fact end.now b }
{
    match end {
        TacEnd::Jump(to) => *to as usize == b,
        TacEnd::Branch(c, x, y, one, two) => {
            (*one as usize == b && !is_same(claim(*c, *x, *y, true), fact))
                || (*two as usize == b && !is_same(claim(*c, *x, *y, false), fact))
        }
        TacEnd::Return(_) => false,
    }
}

fn fact_in(question: Question) -> Fact
    ensures { result ≡ fact_in_of question }
{
    match question {
        Question::Stated(fact) => fact,
        Question::Counted(r, _) => not_negative(r),
    }
}

/// That a register is below a limit as a signed word.
pub fn less(r: u32, limit: Operand) -> Fact
    ensures { result ≡ fact_of LtS (Register r) limit true }
{
    claim(Comparison::LtS, Operand::Register(r), limit, true)
}

/// Whether an operation adds 1 to a register.
fn adds_one(op: &TacOp, r: u32) -> bool
    ensures { result ≡ adds_one_of op.now r }
{
    match op {
        TacOp::Bin(BinOp::Add, t, Operand::Register(q), Operand::Number(n)) => *t == r
            && *q == r
            && *n == 1,
        _ => false,
    }
}
