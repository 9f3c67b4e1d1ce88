//! The work of the writer's thread.
ghost use Rattle.std.specs.Prelude.{◌≡◌, ◌≤◌, ◌<◌, ◌+◌, ◌++◌, vec_len, IfOk, IfErr, OnErr, OnOk, IsOkUnless, Ok};
ghost use Rattle.std.specs.Vec.{vec_capacity};
ghost use Rattle.council_core.specs.Ledgers.{verdict_of};
ghost use Rattle.council_core.specs.Sequential.{answered, ordered, response_to, submit};
ghost use Rattle.board_text.specs.declared.stops.Stop.TheVariants as stop;
ghost use Rattle.board_serve.specs.Work.{CanWrite, HasWritten, IsWritten, StopsAt, StopsWithin, cuts_of_reply};
ghost use Rattle.board_serve.specs.Work.{register_of};

use crate::gates::{Gate, Place, pass};
use board_share::Writer;
use board_text::Stop;
use council_core::{Answer, Command, Order, Refusal};
use std::alloc::{AllocError, Global};
use std::sync::Wait;

// A writer, its records, the answers to them, and the numbers that its publications returned.
#[derive(Drop)]
pub(crate) struct WriterWork {
    pub(crate) writer: Writer,
    pub(crate) orders: Vec<Order>,
    pub(crate) answers: Vec<Answer>,
    pub(crate) cuts: Vec<u32>,
}

// Submits a command to the writer.
fn submit(writer: &mut Writer, command: Command) -> Result<Answer, Stop>
    ensures replied { IfOk result (λ a. answered a ≡ (response_to (register_of writer.old) (submit command)).1) }
    ensures after { OnOk result (register_of writer.new ≡ (response_to (register_of writer.old) (submit command)).0) }
    ensures table { writer.new.table ≡ writer.old.table }
    ensures memory { IsOkUnless result stop.OutOfMemory }
    ensures acceptable { OnErr result (verdict_of writer.old.ledger command ≡ Ok tt) }
{
    match writer.submit(command) {
        Ok(accepted) => Ok(Answer::Accepted(accepted)),
        Err(Refusal::OutOfMemory) => Err(Stop::OutOfMemory),
        Err(why) => Ok(Answer::Refused(why)),
    }
}

// Carries out an order, and passes the gate before and after a publication. `publications` counts
// the publications. A run has fewer publications than its input has bytes, so the count never
// reaches the largest u32.
fn carry_out_order<G: Gate, R: Wait>(
    rt: &R,
    gate: &G,
    writer: &mut Writer,
    order: Order,
    publications: &mut u32,
) -> Result<Answer, Stop>
    ensures replied { IfOk result (λ a. answered a ≡ (response_to (register_of writer.old) (ordered order)).1) }
    ensures after { OnOk result (register_of writer.new ≡ (response_to (register_of writer.old) (ordered order)).0) }
    ensures table { writer.new.table ≡ writer.old.table }
    ensures causes { IfErr result (StopsAt (register_of writer.old) order) }
{
    match order {
        Order::Submit(command) => return submit(writer, command),
        Order::Publish => {
            *publications = publications.saturating_add(1);
            pass(gate, Place::BeforePublish(*publications))?;
            let front = writer.publish(rt);
            pass(gate, Place::AfterPublish(*publications))?;
            return Ok(Answer::Published(front));
        }
    }
}

// Stores the number that this answer returns, if it is the answer to a publication.
fn keep_cut(cuts: &mut Vec<u32>, answer: Answer)
    requires room { vec_len cuts.old < vec_capacity cuts.old }
    ensures kept { cuts.new.items ≡ cuts.old.items ++ cuts_of_reply (answered answer) }
    ensures count { vec_len cuts.new ≤ vec_len cuts.old + 1 }
    ensures room { vec_capacity cuts.new ≡ vec_capacity cuts.old }
{
    if let Answer::Published(front) = answer {
        cuts.push_reserved(front);
    }
}

impl WriterWork {
    // The work of a writer, with room for its answers.
    pub(crate) fn new(
        alloc: Global,
        writer: Writer,
        orders: Vec<Order>,
    ) -> Result<WriterWork, AllocError>
        ensures ready { IfOk result CanWrite }
        ensures writer { IfOk result (λ w. w.writer ≡ writer) }
        ensures orders { IfOk result (λ w. w.orders ≡ orders) }
    {
        Ok(WriterWork {
            writer,
            answers: Vec::with_capacity(alloc, orders.len())?,
            cuts: Vec::with_capacity(alloc, orders.len())?,
            orders,
        })
    }

    // Carries out the writer's records in order.
    fn write_orders<G: Gate, R: Wait>(&mut self, rt: &R, gate: &G) -> Result<(), Stop>
        requires ready { CanWrite self.old }
        ensures written { OnOk result (IsWritten self.old.writer self.old.orders.items self.new) }
        ensures causes { IfErr result (StopsWithin (register_of self.old.writer) self.old.orders.items) }
    {
        let mut publications: u32 = 0;
        for order in self.orders.as_slice() {
            let answer = carry_out_order(rt, gate, &mut self.writer, *order, &mut publications)?;
            self.answers.push_reserved(answer);
            keep_cut(&mut self.cuts, answer);
        }
        Ok(())
    }

    // Does the writer's work and returns it.
    pub(crate) fn run<G: Gate, R: Wait>(self, rt: &R, gate: &G) -> Result<WriterWork, Stop>
        requires ready { CanWrite self }
        ensures written { HasWritten self result }
    {
        let mut work = self;
        work.write_orders(rt, gate)?;
        Ok(work)
    }
}
