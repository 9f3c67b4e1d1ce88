//! A plan: the register at the start of a script, and the script's records by thread.
ghost use Rattle.std.specs.Prelude.{◌≡◌, ◌∷◌, [], length, map, OnOk};
ghost use Rattle.board_text.specs.Text.{request_within};
ghost use Rattle.board_serve.specs.Plans.{no_records, plan_effect, plan_over, plan_start, records_of, with_request};

use board_text::{Interpreter, Limits, Output, Request, ScriptStart, Stop, request_in};
use council_core::{ChairId, Command, Order, Refusal, Register};
use csv::ByteRecord;
use majority_rule::Majority;
use recording_io::Recorder;
use std::alloc::{AllocError, Global};
use std::marker::Model;

// The number of readers of a run.
pub(crate) const SERVED_READERS: usize = 2;

// The script's records: the writer's, and the majorities of each reader's readings.
#[derive(Drop)]
pub(crate) struct Records {
    pub(crate) orders: Vec<Order>,
    pub(crate) asked: [Vec<Majority>; SERVED_READERS],
}

impl Records {
    // No records.
    fn new(alloc: Global) -> Records
        ensures none { records_of result ≡ no_records }
    {
        Records {
            orders: Vec::new(alloc),
            asked: [Vec::new(alloc), Vec::new(alloc)],
        }
    }

    // Appends a request to the records of the writer or of its reader, if that is one of the readers
    // of a run.
    fn add(&mut self, request: Request) -> Result<(), AllocError>
        ensures added { OnOk result (records_of self.new ≡ with_request (records_of self.old) request) }
    {
        // The prover needs these lines, since an order has a command, which may have a chair.
        let _nothing: Option<Command> = None;
        let _nowhere: Option<ChairId> = None;
        match request {
            Request::Order(order) => self.orders.push(order)?,
            Request::Read(reader, majority) => {
                let index = usize::from(reader).saturating_sub(1);
                if index < SERVED_READERS {
                    self.asked[index].push(majority)?;
                }
            }
        }
        Ok(())
    }
}

// A register at its start, and the script's records.
#[derive(Drop)]
pub(crate) struct Plan {
    register: Register,
    records: Records,
}

impl Model for Plan {
    ghost use Rattle.std.specs.Prelude.{◌≡◌, []};
    ghost use Rattle.board_serve.specs.Plans.{Planned, plan_over, records_of};

    ghost Value = { Planned };

    ghost view = { λ p. plan_over p.register (records_of p.records) };

    ghost invariant = { λ p. p.register.journal ≡ [] };
}

impl Plan {
    // The number of readings of each reader.
    pub(crate) fn counts(&self) -> (u64, u64)
        ensures same { result.0 ∷ result.1 ∷ [] ≡ map length self.now.records.asked }
    {
        let [first, second] = &self.records.asked;
        (first.len() as u64, second.len() as u64)
    }

    // The register and the records.
    pub(crate) fn into_parts(self) -> (Register, Records)
        ensures parts { self ≡ plan_over result.0 (records_of result.1) }
        ensures empty { result.0.journal ≡ [] }
    {
        (self.register, self.records)
    }
}

impl Interpreter for Plan {
    type Asked = Request;

    ghost opened = { plan_start };

    ghost parsed = { request_within };

    ghost effect = { plan_effect };

    fn open(alloc: Global, start: ScriptStart, _limits: Limits) -> Result<Plan, Stop> {
        Ok(Plan {
            register: start.register,
            records: Records::new(alloc),
        })
    }

    fn parse(limits: Limits, row: &ByteRecord) -> Result<Request, Refusal> {
        request_in(limits, row)
    }

    fn carry_out<W: Recorder>(
        &mut self,
        request: Request,
        _out: &mut Output<'_, W>,
    ) -> Result<(), Stop> {
        self.records.add(request)?;
        Ok(())
    }
}
