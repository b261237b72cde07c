// The hosts over their one world, and one turn of one of them.
ghost use Rattle.std.specs.Prelude.{◌≡◌, ◌+◌, ◌++◌, ◌*◌, ◌<◌, ◌≤◌, IfErr, IfOk, None, Some, length, slice_get};
ghost use Rattle.cluster.specs.Agreements.{IsSound, IsStanding, IsSteady, IsUnmoved, Supplied, Turned};
ghost use Rattle.cluster.specs.Hands.{MayHandIn};
ghost use Rattle.cluster.specs.Parts.{HasTaken, IsCommandAt, IsNoted, IsOpenFrom, IsStepped, MayStep, asked_by, asked_of, of_phase};
ghost use Rattle.cluster.specs.PlanTurns.{GoesSooner, IsSoonerFor, IsSuppliedTurns};
ghost use Rattle.cluster.specs.Views.{head_at, seat_at};
ghost use Rattle.cluster.specs.Waits.{Tells};
ghost use Rattle.disk_locks.specs.Consistent.{Consistent};
ghost use Rattle.host_runs.specs.NextLines.{next_line};
ghost use Rattle.host_runs.specs.RunStates.{entry_at, events_at};

use crate::asking::asked_with;
use crate::ledger::Ledger;
use crate::seat::{Done, Seat};
use held_cache::HeldCache;
use meta_world::MetaWorld;
use shared_disk::Device;
use std::marker::Model;
use vol_base::{Block, Command, Digest, HostNo, NoMemory, Turn};
use workload::{Line, Workload};

/// All of a cluster but its beginning.
#[derive(Drop)]
pub struct Parts<D: Device> {
    pub world: MetaWorld<D>,
    /// The tables of files that hosts keep while they hold the files.
    pub cache: HeldCache,
    pub workload: Workload,
    pub phase: u32,
    pub ledger: Ledger,
    /// By host the position of its first command without an answer.
    pub heads: Vec<Option<u32>>,
    /// By host.
    pub seats: Vec<Seat>,
}

impl<D: Device> Model for Parts<D> {
    ghost use Rattle.cluster.specs.Views.{PartsView};

    ghost Value = { PartsView };

    ghost view = { λ p. record { world = p.world; cache = p.cache; workload = p.workload; phase = p.phase; ledger = p.ledger; heads = p.heads.items; seats = p.seats.items } };
}

impl<D: Device> Parts<D> {
    /// The position of the line that a host is at; `None` where it has no command left in the phase.
    pub fn next_line(&self, host: HostNo) -> Option<u32>
        requires sound { IsSound self.now }
        ensures { result ≡ next_line self.now.workload.lines self.now.ledger.answers self.now.phase host }
    {
        if host >= self.hosts() {
            return None;
        }
        match self.head(host) {
            Some(position) => self.of_phase(position),
            None => None,
        }
    }

    /// The number of hosts.
    pub fn hosts(&self) -> HostNo
        ensures { result ≡ self.now.workload.geometry.hosts }
    {
        self.workload.geometry.hosts
    }

    // The position of a host's first command without an answer.
    fn head(&self, host: HostNo) -> Option<u32>
        requires { host < length self.now.heads }
        ensures { result ≡ head_at self.now host }
    {
        self.heads[usize::from(host)]
    }

    // The position, if its line is of the phase.
    fn of_phase(&self, position: u32) -> Option<u32>
        requires within { position < length self.now.workload.lines }
        ensures { result ≡ of_phase self.now.workload.lines self.now.phase position }
    {
        if self.workload.lines.as_slice()[position as usize].phase == self.phase {
            Some(position)
        } else {
            None
        }
    }

    /// The block whose digest a host waits for: that of a `write` or a `scribble` which its joined host is to begin, or one that a `scan`
    /// has read.
    pub fn awaited(&self, host: HostNo) -> Option<Block>
        requires sound { IsSound self.now }
        ensures { result ≡ asked_of self.now host }
    {
        match self.next_line(host) {
            Some(position) => self.asked(host, &self.command(position)),
            None => None,
        }
    }

    /// One turn of a host.
    pub fn turn(&mut self, host: HostNo) -> Result<Turn, NoMemory>
        requires sound { IsSound self.old }
        requires standing { IsStanding self.old }
        requires steady { IsSteady self.old }
        ensures turned { IfOk result (λ turn. Turned self.old host turn self.new) }
        ensures sooner { IfOk result (λ turn. IsSoonerFor self.old host turn self.new) }
        ensures tells { IfOk result (λ turn. Tells self.old host turn) }
        ensures standing { IfOk result (λ turn. IsStanding self.new) }
        ensures sound { IsSound self.new }
        ensures same { IfErr result (λ e. IsUnmoved self.old self.new) }
        ensures workload { self.new.workload ≡ self.old.workload }
    {
        match self.next_line(host) {
            None => Ok(Turn::Idle),
            Some(position) => self.turn_at(host, position),
        }
    }

    // One turn of a host that is at this line.
    fn turn_at(&mut self, host: HostNo, position: u32) -> Result<Turn, NoMemory>
        requires sound { IsSound self.old }
        requires standing { IsStanding self.old }
        requires steady { IsSteady self.old }
        requires at { next_line self.old.workload.lines self.old.ledger.answers self.old.phase host ≡ Some position }
        ensures turned { IfOk result (λ turn. Turned self.old host turn self.new) }
        ensures sooner { IfOk result (λ turn. IsSoonerFor self.old host turn self.new) }
        ensures tells { IfOk result (λ turn. Tells self.old host turn) }
        ensures standing { IfOk result (λ turn. IsStanding self.new) }
        ensures sound { IsSound self.new }
        ensures same { IfErr result (λ e. IsUnmoved self.old self.new) }
        ensures workload { self.new.workload ≡ self.old.workload }
    {
        let command = self.command(position);
        match self.asked(host, &command) {
            Some(block) => Ok(Turn::Work(block)),
            None => self.act(host, position, &command),
        }
    }

    /// Hands in the digest that a host waits for, by which its command begins or goes on; where it waits for none, nothing changes.
    pub fn supply(&mut self, host: HostNo, digest: Digest)
        requires sound { IsSound self.old }
        requires standing { IsStanding self.old }
        requires steady { IsSteady self.old }
        ensures supplied { Supplied self.old host digest self.new }
        ensures turns { IsSuppliedTurns self.old host self.new }
        ensures standing { IsStanding self.new }
        ensures sound { IsSound self.new }
        ensures workload { self.new.workload ≡ self.old.workload }
    {
        if let Some(position) = self.next_line(host) {
            self.supply_at(host, position, digest);
        }
    }

    // The same of a host that is at this line.
    fn supply_at(&mut self, host: HostNo, position: u32, digest: Digest)
        requires sound { IsSound self.old }
        requires standing { IsStanding self.old }
        requires steady { IsSteady self.old }
        requires at { next_line self.old.workload.lines self.old.ledger.answers self.old.phase host ≡ Some position }
        ensures supplied { Supplied self.old host digest self.new }
        ensures turns { IsSuppliedTurns self.old host self.new }
        ensures standing { IsStanding self.new }
        ensures sound { IsSound self.new }
        ensures workload { self.new.workload ≡ self.old.workload }
    {
        self.known();
        let command = self.command(position);
        if self.asked(host, &command).is_some() {
            self.hand_in(host, &command, digest);
        }
    }

    // The command begins, or goes on, with this digest.
    fn hand_in(&mut self, host: HostNo, command: &Command, digest: Digest)
        requires host { host < length self.old.seats }
        requires may { MayHandIn command.now (seat_at self.old host) }
        ensures { HasTaken self.old host command.now digest self.new }
    {
        self.seats[usize::from(host)].hand_in(host, command, digest);
    }

    // The turn of a host whose command asks for no digest.
    fn act(&mut self, host: HostNo, position: u32, command: &Command) -> Result<Turn, NoMemory>
        requires sound { IsSound self.old }
        requires standing { IsStanding self.old }
        requires steady { IsSteady self.old }
        requires at { next_line self.old.workload.lines self.old.ledger.answers self.old.phase host ≡ Some position }
        requires command { IsCommandAt self.old position command.now }
        requires asks { asked_by self.old host command.now ≡ None }
        ensures turned { IfOk result (λ turn. Turned self.old host turn self.new) }
        ensures sooner { IfOk result (λ turn. IsSoonerFor self.old host turn self.new) }
        ensures tells { IfOk result (λ turn. Tells self.old host turn) }
        ensures standing { IfOk result (λ turn. IsStanding self.new) }
        ensures sound { IsSound self.new }
        ensures same { IfErr result (λ e. IsUnmoved self.old self.new) }
        ensures workload { self.new.workload ≡ self.old.workload }
    {
        self.known();
        match self.step(host, command) {
            Ok(done) => {
                self.note(host, position, &done);
                match done.ended {
                    Some(answer) => Ok(Turn::Answered(answer)),
                    None => Ok(Turn::Moved),
                }
            }
            Err(no) => Err(no),
        }
    }

    // What holds of the locks between any two calls.
    fn known(&self)
        ensures { Consistent self.now.world.locks }
    {
        let _geometry = self.world.locks().geometry();
    }

    // The host's seat makes its turn.
    fn step(&mut self, host: HostNo, command: &Command) -> Result<Done, NoMemory>
        requires sound { IsSound self.old }
        requires host { host < self.old.workload.geometry.hosts }
        requires may { MayStep self.old host command.now }
        ensures stepped { IfOk result (IsStepped self.old host command.now self.new) }
        ensures sooner { IfOk result (λ done. GoesSooner self.old.world self.old.cache (seat_at self.old host) self.new.world self.new.cache (seat_at self.new host) done.ended) }
        ensures same { IfErr result (λ e. IsUnmoved self.old self.new) }
        ensures sound { IsSound self.new }
        ensures workload { self.new.workload ≡ self.old.workload }
    {
        self.seats[usize::from(host)].turn(host, command, &mut self.world, &mut self.cache)
    }

    // Notes what a turn did: its entry and its answer; and behind an answer the host is at its next line.
    fn note(&mut self, host: HostNo, position: u32, done: &Done)
        requires host { host < length self.old.heads }
        requires without { slice_get self.old.ledger.answers position ≡ Some None }
        requires position { position < length self.old.workload.lines }
        requires few { length self.old.workload.lines < 4294967296 }
        requires long { length self.old.ledger.answers ≡ length self.old.workload.lines }
        requires entries { length (self.old.ledger.history ++ entry_at position done.now.placed) ≤ length self.old.ledger.answers }
        requires events { length (self.old.ledger.events ++ events_at position done.now.placed done.now.ended) ≤ 2 * length self.old.ledger.answers }
        ensures { IsNoted self.old host position done.now self.new }
    {
        self.ledger.note(position, done);
        if done.ended.is_some() {
            let next = next_own(self.workload.lines.as_slice(), position + 1, host);
            self.heads[usize::from(host)] = next;
        }
    }

    // The command of the line at a position.
    fn command(&self, position: u32) -> Command
        requires { position < length self.now.workload.lines }
        ensures { IsCommandAt self.now position result }
    {
        self.workload.lines.as_slice()[position as usize].command
    }

    // The block whose digest a host waits for, which is at this command.
    fn asked(&self, host: HostNo, command: &Command) -> Option<Block>
        requires sound { IsSound self.now }
        requires host { host < self.now.workload.geometry.hosts }
        ensures { result ≡ asked_by self.now host command.now }
    {
        let joined = self.world.locks().host(host).key.is_some();
        let seat = &self.seats[usize::from(host)];
        asked_with(&self.workload.geometry, &seat.plan, joined, command)
    }
}

// The first line of a host from a position on.
pub fn next_own(lines: &[Line], from: u32, host: HostNo) -> Option<u32>
    requires few { length lines.now < 4294967296 }
    requires from { from ≤ length lines.now }
    ensures { IsOpenFrom lines.now from host result }
{
    for position in from as usize..lines.len() {
        if lines[position].host == host {
            return Some(position as u32);
        }
    }
    None
}
