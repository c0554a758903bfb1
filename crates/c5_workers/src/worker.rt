//! A worker.

ghost use Rattle.std.specs.Prelude.{◌≡◌, ◌≤◌, ◌<◌, ◌+◌, ◌^◌, ◌↔◌, IsTrue, length, vec_capacity};
ghost use Rattle.std.specs.Prelude.{IfOk};
ghost use Rattle.c5_board.specs.Boards.{IsWorker};
ghost use Rattle.c5_workers.specs.Tries.{Retries, least_of, with_next};
ghost use Rattle.c5_workers.specs.Work.{IsNewWorker, FitsUnworked, IsSameWorker, FitsWorker};
ghost use Rattle.c5_workers.specs.Work.{HasNothingToTry, TriesNext, with_progress, WorksTurn};
ghost use Rattle.c5_workers.specs.Work.{installed_by};
ghost use Rattle.c5_workers.specs.Work.{put_off_by, OnlyWorks};
ghost use Rattle.c5_workers.specs.Left.{TakesLeast, IsNextLeft, with_left};
ghost use Rattle.c5_board.specs.Passes.{owner_in};
ghost use Rattle.c5_rows.specs.Sizes.{max_put_off, max_workers};

use crate::retrying::retry;
use crate::work_turn::WorkTurn;
use c5_board::{Board, BoardPass};
use c5_chains::{Install, try_install};
use c5_definitions::number_law;
use c5_rows::{MAX_PUT_OFF, NoMemory};
use std::alloc::Global;

/// Installs the writes that one worker owns.
#[derive(Drop)]
pub struct Worker {
    i: u32,
    workers: u32,
    // The least of its numbers that it hasn't tried.
    next: u32,
    // Those that it has tried and put off, ascending.
    put_off: Vec<u32>,
}

// Adds a number that was put off. There is room for it.
fn keep(put_off: &mut Vec<u32>, w: u32, install: Install)
    requires few { length put_off.old.items < max_put_off }
    requires room { max_put_off ≤ vec_capacity put_off.old }
    ensures list { put_off.new.items ≡ with_next put_off.old.items w install }
    ensures few { length put_off.new.items ≤ max_put_off }
    ensures room { max_put_off ≤ vec_capacity put_off.new }
{
    if let Install::PutOff { .. } = install {
        match put_off.push(w) {
            Ok(()) => {}
            Err(_) => unreachable!(),
        }
    }
}

impl Worker {
    /// Worker i of so many, which has tried nothing. It has room for the numbers that it puts off.
    pub fn new(alloc: Global, i: u32, workers: u32) -> Result<Worker, NoMemory>
        requires worker { IsWorker workers i }
        requires few { workers ≤ max_workers }
        ensures new { IfOk result (λ worker. IsNewWorker worker i workers) }
        ensures fits { IfOk result (λ worker. FitsUnworked worker i workers) }
    {
        number_law();
        let put_off = Vec::with_capacity(alloc, MAX_PUT_OFF)?;
        Ok(Worker {
            i,
            workers,
            next: i,
            put_off,
        })
    }

    // The least number that it owns and that isn't installed.
    fn least(&self) -> u64
        ensures { result ≡ least_of self.now.put_off.items self.now.next }
    {
        match self.put_off.first() {
            Some(w) => *w as u64,
            None => self.next as u64,
        }
    }

    // Whether nothing is put off and the next number is above this one.
    fn is_idle(&self, most: u32) -> bool
        ensures { IsTrue result ↔ HasNothingToTry self.now most }
    {
        self.put_off.is_empty() && self.next > most
    }

    // Stores the least number that isn't installed as progress.
    pub(crate) fn store_least(&self, board: &Board<'_>, pass: &mut BoardPass)
        requires pass { pass.old.board ≡ board.now }
        requires fits { FitsWorker self.now pass.old }
        ensures fits { FitsWorker self.now pass.new }
        ensures pass { pass.new
            ≡ with_progress pass.old self.now.i (least_of self.now.put_off.items self.now.next) }
    {
        number_law();
        let _place = pass.place();
        board.store_progress(pass, self.i, self.least());
    }

    // Tries the next number if fewer than 64 are put off and it is scheduled. It is put off if it
    // isn't installed.
    fn try_next(
        &mut self,
        board: &Board<'_>,
        pass: &mut BoardPass,
        scheduled: u32,
    ) -> Option<Install>
        requires pass { pass.old.board ≡ board.now }
        requires fits { FitsWorker self.old pass.old }
        requires scheduled { scheduled ≡ pass.old.scheduled }
        ensures fits { FitsWorker self.new pass.new }
        ensures tries { TriesNext self.old self.new pass.old pass.new result }
        ensures board { pass.new.board ≡ pass.old.board }
    {
        number_law();
        let _place = pass.place();
        let _writes = board.writes();
        if self.put_off.len() >= MAX_PUT_OFF || self.next > scheduled {
            return None;
        }
        let w = self.next;
        let install = try_install(board, pass, w);
        keep(&mut self.put_off, w, install);
        self.next = w + self.workers;
        Some(install)
    }

    // Tries each number that is put off once, ascending.
    fn retry_all(&mut self, board: &Board<'_>, pass: &mut BoardPass)
        requires pass { pass.old.board ≡ board.now }
        requires fits { FitsWorker self.old pass.old }
        ensures fits { FitsWorker self.new pass.new }
        ensures same { IsSameWorker self.old self.new }
        ensures next { self.new.next ≡ self.old.next }
        ensures few { length self.new.put_off.items ≤ length self.old.put_off.items }
        ensures retries { Retries pass.old pass.new self.old.put_off.items self.new.put_off.items }
        ensures board { pass.new.board ≡ pass.old.board }
        ensures scheduled { pass.new.scheduled ≡ pass.old.scheduled }
    {
        let kept = retry(board, pass, self.put_off.as_mut_slice(), self.i, self.next);
        self.put_off.truncate(kept);
    }

    // Takes the least of its numbers, the first that is put off or else the next one, off them.
    fn take_least(&mut self)
        requires { self.old.next + self.old.workers < 2 ^ 32 }
        ensures { TakesLeast self.old self.new }
    {
        if self.put_off.is_empty() {
            self.next += self.workers;
        } else {
            self.put_off.remove(0);
        }
    }

    // Installs write w, which it owns, unless it is installed. Each write below w is installed, so
    // w isn't put off.
    pub(crate) fn install(&mut self, board: &Board<'_>, pass: &mut BoardPass, w: u32)
        requires pass { pass.old.board ≡ board.now }
        requires fits { FitsWorker self.old pass.old }
        requires next { IsNextLeft pass.old w }
        requires owned { owner_in pass.old w ≡ self.old.i }
        ensures fits { FitsWorker self.new pass.new }
        ensures i { self.new.i ≡ self.old.i }
        ensures pass { pass.new ≡ with_left pass.old w }
    {
        number_law();
        let _place = pass.place();
        let _writes = board.writes();
        if self.least() != w as u64 {
            return;
        }
        match try_install(board, pass, w) {
            Install::Installed => self.take_least(),
            Install::PutOff { .. } => unreachable!(),
        }
    }

    /// Tries each number that is put off, ascending, and then the next one, if fewer than 64 are
    /// put off and it is scheduled. Then the least number that isn't installed is stored as the
    /// worker's progress.
    pub fn turn(&mut self, board: &Board<'_>, pass: &mut BoardPass) -> WorkTurn
        requires pass { pass.old.board ≡ board.now }
        requires fits { FitsWorker self.old pass.old }
        ensures fits { FitsWorker self.new pass.new }
        ensures turn { WorksTurn self.old self.new pass.old pass.new result }
        ensures only { OnlyWorks self.old.i pass.old pass.new }
    {
        number_law();
        let _place = pass.place();
        if self.is_idle(board.writes()) {
            return WorkTurn::Done;
        }
        let scheduled = board.load_scheduled(pass);
        if self.is_idle(scheduled) {
            self.store_least(board, pass);
            return WorkTurn::NotYet { scheduled };
        }
        let waiting = self.put_off.len();
        self.retry_all(board, pass);
        let retried = waiting - self.put_off.len();
        let result = self.try_next(board, pass, scheduled);
        self.store_least(board, pass);
        WorkTurn::Did {
            installed: retried as u32 + installed_by(result),
            put_off: put_off_by(result),
        }
    }
}

// How many writes are installed by a try, if there was one.
fn installed_by(tried: Option<Install>) -> u32
    ensures { result ≡ installed_by tried }
{
    match tried {
        Some(Install::Installed) => 1,
        _ => 0,
    }
}

// How many writes are put off by a try, if there was one.
fn put_off_by(tried: Option<Install>) -> u32
    ensures { result ≡ put_off_by tried }
{
    match tried {
        Some(Install::PutOff { .. }) => 1,
        _ => 0,
    }
}
