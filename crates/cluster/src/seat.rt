// A host between two of its turns, and one turn of it.
ghost use Rattle.std.specs.Prelude.{◌≡◌, ◌<◌, ◌&&◌, IfErr, IfOk, IfSome, IsSome, IsTrue, None, Some, if◌then◌else◌, is_some, true};
ghost use Rattle.cluster.specs.Dropping.{IsAnsweredAtOnce, IsDroppedIn};
ghost use Rattle.cluster.specs.Asking.{asked_with, plan_asks};
ghost use Rattle.cluster.specs.Hands.{HasStartedPlan, IsAsking, IsHandedIn, IsTaken, MayHandIn, MayTake};
ghost use Rattle.cluster.specs.PlanTurns.{GoesSooner};
ghost use Rattle.cluster.specs.Plans.{IsOf, IsPlanned, IsResting, PlanAt};
ghost use Rattle.cluster.specs.Seats.{HasMoved, IsKnown, MakesTurn, PlanNotedOf, PlanStandsOf, at_once, is_answered, is_last, left_behind, less};
ghost use Rattle.host_runs.specs.Notes.{Notes};
ghost use Rattle.cluster.specs.Views.{IsFirstSeat};
ghost use Rattle.vol_layout.specs.Ranges.{IsGeometry};
ghost use Rattle.workload.specs.Ranges.{is_in_range};
ghost use Rattle.file_plans.specs.Went.{LeavesOthers};
ghost use Rattle.host_facts.specs.Others.{Others};
ghost use Rattle.lock_store.specs.Views.{host_at};
ghost use Rattle.plan_parts.specs.Cuts.{IsUntouched};
ghost use Rattle.plan_parts.specs.Steps.{ended_of};

use crate::carried::Carried;
use crate::plan::Plan;
use held_cache::HeldCache;
use meta_world::MetaWorld;
use shared_disk::Device;
use std::alloc::{AllocError, Global};
use vol_base::{Answer, Command, CutBy, Digest, HostNo, Next, NoMemory, PlainReply, Step};
use vol_layout::Geometry;

/// A host of the cluster.
#[derive(Drop)]
pub struct Seat {
    /// The plan of its command under way, from the command's first step until its answer.
    pub plan: Option<Plan>,
    /// What it keeps beside it.
    pub carried: Carried,
    /// The number of device calls until it dies, at least 1; none where no death stands.
    pub left: Option<u32>,
}

/// What a turn of a host did beside its device call: the plain reply that got its place in the history, and the answer of the command.
#[derive(Clone, Copy, Debug, PartialEq, Eq)]
pub struct Done {
    pub placed: Option<PlainReply>,
    pub ended: Option<Answer>,
}

impl Seat {
    /// A host that has not begun.
    pub fn new(alloc: Global, geometry: &Geometry) -> Result<Seat, AllocError>
        requires { IsGeometry geometry.now }
        ensures { IfOk result (IsFirstSeat geometry.now) }
    {
        Ok(Seat {
            plan: None,
            carried: Carried::new(alloc, geometry)?,
            left: None,
        })
    }

    /// One turn of the host with this command. Where there was no memory for it nothing was done, and the host is at its end.
    pub fn turn<D: Device>(
        &mut self,
        host: HostNo,
        command: &Command,
        world: &mut MetaWorld<D>,
        cache: &mut HeldCache,
    ) -> Result<Done, NoMemory>
        requires host { host < world.old.locks.geometry.hosts }
        requires known { IsKnown host command.now }
        requires range { IsTrue (is_in_range world.old.locks.geometry command.now) }
        requires stands { PlanStandsOf command.now world.old cache.old host self.old.carried self.old.plan }
        requires noted { (n : Notes) × PlanNotedOf command.now world.old host self.old.carried self.old.plan n }
        requires unasked { asked_with world.old.locks.geometry self.old.plan (is_some (host_at world.old.locks host).key) command.now ≡ None }
        ensures made { IfOk result (MakesTurn command.now host world.old world.new cache.new self.old self.new) }
        ensures sooner { IfOk result (λ done. GoesSooner world.old cache.old self.old world.new cache.new self.new done.ended) }
        ensures none { IfErr result (λ e. IsUntouched host world.old world.new) }
        ensures others { Others host world.old world.new }
        ensures leaves { LeavesOthers host cache.old cache.new }
    {
        match self.plan {
            Some(_) => self.go_on(host, command, world, cache),
            None => self.begin(host, command, world, cache),
        }
    }

    /// Hands in the digest that the host waits for, by which its command goes on, or begins. No device call is made.
    pub fn hand_in(&mut self, host: HostNo, command: &Command, digest: Digest)
        requires { MayHandIn command.now self.old }
        ensures { IsHandedIn host command.now digest self.old self.new }
    {
        if self.plan.is_none() {
            self.start(host, command);
        }
        self.take(digest);
    }

    // The plan of a command stands at its beginning. Plans are large: one is moved where it has to be alone.
    fn start(&mut self, host: HostNo, command: &Command)
        requires { IsPlanned host command.now }
        ensures { HasStartedPlan host command.now self.old self.new }
    {
        self.plan = Some(Plan::of(host, command));
    }

    // The plan under way takes the digest that it waits for.
    fn take(&mut self, digest: Digest)
        requires asks { IfSome self.old.plan (λ plan. IsAsking plan × MayTake self.old.carried.pending.geometry plan) }
        requires some { IsSome self.old.plan }
        ensures { IfSome self.old.plan (λ before. IsTaken digest before self.old self.new) }
    {
        let Some(plan) = &mut self.plan else {
            unreachable!()
        };
        plan.hand_in(digest, &mut self.carried);
    }

    // The first turn of a command that asks for no digest.
    fn begin<D: Device>(
        &mut self,
        host: HostNo,
        command: &Command,
        world: &mut MetaWorld<D>,
        cache: &mut HeldCache,
    ) -> Result<Done, NoMemory>
        requires host { host < world.old.locks.geometry.hosts }
        requires known { IsKnown host command.now }
        requires range { IsTrue (is_in_range world.old.locks.geometry command.now) }
        requires none { self.old.plan ≡ None }
        requires stands { IsResting world.old cache.old host self.old.carried }
        requires noted { (n : Notes) × PlanNotedOf command.now world.old host self.old.carried self.old.plan n }
        requires unasked { asked_with world.old.locks.geometry None (is_some (host_at world.old.locks host).key) command.now ≡ None }
        ensures made { IfOk result (MakesTurn command.now host world.old world.new cache.new self.old self.new) }
        ensures sooner { IfOk result (λ done. GoesSooner world.old cache.old self.old world.new cache.new self.new done.ended) }
        ensures none { IfErr result (λ e. IsUntouched host world.old world.new) }
        ensures others { Others host world.old world.new }
        ensures leaves { LeavesOthers host cache.old cache.new }
    {
        let _geometry = world.locks().geometry();
        let joined = world.locks().host(host).key.is_some();
        match at_once(command, joined) {
            Some(answer) => Ok(self.answer(host, command, answer, world, cache)),
            None => {
                self.start(host, command);
                self.go_on(host, command, world, cache)
            }
        }
    }

    // A turn of a command that has its plan.
    fn go_on<D: Device>(
        &mut self,
        host: HostNo,
        command: &Command,
        world: &mut MetaWorld<D>,
        cache: &mut HeldCache,
    ) -> Result<Done, NoMemory>
        requires host { host < world.old.locks.geometry.hosts }
        requires known { IsPlanned host command.now }
        requires stands { IfSome self.old.plan (λ plan. IsOf host command.now plan × PlanAt world.old cache.old host self.old.carried plan) }
        requires some { IsSome self.old.plan }
        requires noted { (n : Notes) × PlanNotedOf command.now world.old host self.old.carried self.old.plan n }
        requires unasked { IfSome self.old.plan (λ plan. plan_asks world.old.locks.geometry plan ≡ None) }
        ensures made { IfOk result (MakesTurn command.now host world.old world.new cache.new self.old self.new) }
        ensures sooner { IfOk result (λ done. GoesSooner world.old cache.old self.old world.new cache.new self.new done.ended) }
        ensures none { IfErr result (λ e. IsUntouched host world.old world.new) }
        ensures others { Others host world.old world.new }
        ensures leaves { LeavesOthers host cache.old cache.new }
    {
        let _geometry = world.locks().geometry();
        // A step has room for two blocks: it is looked at where it stands.
        let went = self.step(host, command, world, cache);
        let _later = world.locks().geometry();
        match &went {
            Ok(step) => {
                if self.counts_last(step.called) {
                    self.drop_host(host, world, cache);
                    return Ok(Done {
                        placed: step.placed,
                        ended: Some(Answer::Cut(CutBy::Died)),
                    });
                }
                Ok(self.end(step))
            }
            Err(no) => Err(*no),
        }
    }

    // What a step did that was no death. A cut ends a standing death.
    fn end(&mut self, step: &Step) -> Done
        ensures done { result ≡ record { placed = step.now.placed; ended = ended_of step.now.next } }
        ensures left { self.new ≡ record self.old { left = left_behind (ended_of step.now.next) self.old.left } }
    {
        if let Next::Answered(Answer::Cut(_)) = step.next {
            self.left = None;
        }
        Done {
            placed: step.placed,
            ended: answer_in(&step.next),
        }
    }

    // One step of the plan, which is kept where its command goes on.
    fn step<D: Device>(
        &mut self,
        host: HostNo,
        command: &Command,
        world: &mut MetaWorld<D>,
        cache: &mut HeldCache,
    ) -> Result<Step, NoMemory>
        requires stands { IfSome self.old.plan (λ plan. IsOf host command.now plan × PlanAt world.old cache.old host self.old.carried plan) }
        requires some { IsSome self.old.plan }
        requires noted { (n : Notes) × PlanNotedOf command.now world.old host self.old.carried self.old.plan n }
        requires unasked { IfSome self.old.plan (λ plan. plan_asks world.old.locks.geometry plan ≡ None) }
        ensures stepped { IfOk result (HasMoved command.now host world.old world.new cache.new self.old self.new) }
        ensures sooner { IfOk result (λ step. GoesSooner world.old cache.old self.old world.new cache.new self.new (ended_of step.next)) }
        ensures none { IfErr result (λ e. IsUntouched host world.old world.new) }
        ensures others { Others host world.old world.new }
        ensures leaves { LeavesOthers host cache.old cache.new }
    {
        let Some(plan) = &mut self.plan else {
            unreachable!()
        };
        let went = plan.next(host, command, world, cache, &mut self.carried);
        if is_answered(&went) {
            self.rest();
        }
        went
    }

    // No command is under way.
    fn rest(&mut self)
        ensures { self.new ≡ record self.old { plan = None } }
    {
        self.plan = None;
    }

    // Counts a device call, if there was one, and tells whether it was the one at which the host dies.
    fn counts_last(&mut self, called: bool) -> bool
        ensures last { result ≡ (called && is_last self.old.left) }
        ensures left { self.new ≡ record self.old { left = (if called then less self.old.left else self.old.left) } }
    {
        if !called {
            return false;
        }
        match self.left {
            None => false,
            Some(1) => {
                self.left = None;
                true
            }
            Some(calls) => {
                self.left = Some(calls.saturating_sub(1));
                false
            }
        }
    }

    // The answer of a command that needs no plan. A host that is to die at once is dropped.
    fn answer<D: Device>(
        &mut self,
        host: HostNo,
        command: &Command,
        answer: Answer,
        world: &mut MetaWorld<D>,
        cache: &mut HeldCache,
    ) -> Done
        requires host { host < world.old.locks.geometry.hosts }
        requires cache { cache.old.volume ≡ world.old.locks.geometry }
        ensures done { result ≡ record { placed = None; ended = Some answer } }
        ensures left { IsAnsweredAtOnce host command.now answer world.old world.new cache.old cache.new self.old self.new }
    {
        if let (Command::Die(calls), Answer::Fine) = (command, answer) {
            if *calls == 0 {
                self.drop_host(host, world, cache);
            } else {
                self.left = Some(*calls);
            }
        }
        Done {
            placed: None,
            ended: Some(answer),
        }
    }

    // Drops the host. No device call is made.
    fn drop_host<D: Device>(
        &mut self,
        host: HostNo,
        world: &mut MetaWorld<D>,
        cache: &mut HeldCache,
    )
        requires host { host < world.old.locks.geometry.hosts }
        requires cache { cache.old.volume ≡ world.old.locks.geometry }
        ensures { IsDroppedIn host world.old world.new cache.old cache.new self.new }
    {
        let geometry = *world.locks().geometry();
        world.locks_mut().drop_host(host);
        cache.forget_host(host);
        self.plan = None;
        self.carried.forget(&geometry);
        self.left = None;
    }
}

// The answer of a command that needs no plan.
fn at_once(command: &Command, joined: bool) -> Option<Answer>
    ensures { result ≡ at_once command.now joined }
{
    match command {
        Command::Join if joined => Some(Answer::Up),
        Command::Join => None,
        _ if !joined => Some(Answer::Down),
        Command::Die(_) => Some(Answer::Fine),
        _ => None,
    }
}

// Whether a step ended its command.
fn is_answered(went: &Result<Step, NoMemory>) -> bool
    ensures { result ≡ is_answered went.now }
{
    match went {
        Ok(step) => match step.next {
            Next::Answered(_) => true,
            Next::More | Next::Work(_) => false,
        },
        Err(_) => false,
    }
}

// The answer with which a step ends, if it does.
fn answer_in(next: &Next) -> Option<Answer>
    ensures { result ≡ ended_of next.now }
{
    match next {
        Next::Answered(answer) => Some(*answer),
        Next::More | Next::Work(_) => None,
    }
}
