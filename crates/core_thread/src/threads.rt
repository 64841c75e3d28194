ghost use Rattle.std.specs.Prelude.{◌≡◌, length};
ghost use denote.Param.Send.{IsSend, IsSync};

use super::job::{Job, RunError, Worker};
use super::movers::{Movers, move_on};
use core_thread_system::{All, Gate, Outcome, System, SystemKeys};
use mshr_file::MissFile;
use std::sync::atomic::AtomicUsize;
use std::sync::atomic::Ordering::SeqCst;
use std::sync::{Mutex, Wait};
use std::thread;
use std::thread::{Scope, Threads};

/// Runs each job's program in a thread of its own, in no more than `limit` turns, and returns once all threads have
/// ended. Meanwhile each of the movers makes one delivery after another, until all jobs have ended or it has made
/// `limit` calls.
///
/// If a thread can't be started the result is `Start`. The others run all the same, and a job without a thread is
/// left `NotRun`. The jobs, and so the cores, are the caller's in any case. No memory is allocated but what the cores'
/// requests take, and no lock is held while a gate is notified of a request.
pub fn run_all<R, F, M, G>(
    rt: &R,
    system: &System<F, All<M>>,
    jobs: &mut [Job<'_, F, All<M>>],
    movers: Movers,
    gate: &G,
    limit: u64,
) -> Result<(), RunError>
where
    R: Threads + Wait + Sync,
    F: MissFile + Send,
    M: SystemKeys + Send + Sync,
    G: Gate + Sync,
    ensures { length jobs.new ≡ length jobs.old }
{
    for job in jobs.iter_mut() {
        job.outcome = Outcome::NotRun;
    }
    let ended = AtomicUsize::new(0);
    // The scope takes the jobs out of this lock, which is free again before any thread starts.
    let seat = Mutex::new(Some(&mut *jobs));
    if start(rt, system, &seat, movers, gate, &ended, limit) {
        Ok(())
    } else {
        Err(RunError::Start)
    }
}

// Starts all threads, waits until each has ended, and returns whether all could be started.
fn start<'k, R, F, M, T, G>(
    rt: &R,
    system: &System<F, All<M>>,
    seat: &Mutex<Option<&'k mut [T]>>,
    movers: Movers,
    gate: &G,
    ended: &AtomicUsize,
    limit: u64,
) -> bool
where
    R: Threads + Wait + Sync,
    F: MissFile + Send,
    M: SystemKeys + Send + Sync,
    T: Worker + Send,
    G: Gate + Sync,
{
    thread::scope(
        thread::scope_env(),
        rt,
        move |scope| -> bool
            requires { IsSync R.row × IsSync G.row × IsSend T.row × IsSend F.row × IsSend M.row × IsSync M.row }
        {
            let Some(jobs) = seat.lock(rt).take() else {
                return false;
            };
            let count = jobs.len();
            let jobs_run = start_jobs(scope, rt, jobs, gate, ended, limit);
            let messages_move = start_movers(scope, rt, system, movers, count, ended, limit);
            jobs_run && messages_move
        },
    )
}

// Starts a thread for each job. A job that gets none counts as ended.
fn start_jobs<'s, E, R, T, G>(
    scope: &Scope<'s, E>,
    rt: &'s R,
    jobs: &'s mut [T],
    gate: &'s G,
    ended: &'s AtomicUsize,
    limit: u64,
) -> bool
where
    R: Wait + Sync,
    T: Worker + Send,
    G: Gate + Sync,
{
    let mut all = true;
    for job in jobs.iter_mut() {
        if scope
            .spawn(move || work_one(rt, job, gate, ended, limit))
            .is_err()
        {
            ended.fetch_add(1, SeqCst);
            all = false;
        }
    }
    all
}

// Does one job, and counts it as ended.
fn work_one<R: Wait, T: Worker, G: Gate>(
    rt: &R,
    job: &mut T,
    gate: &G,
    ended: &AtomicUsize,
    limit: u64,
) {
    job.work(rt, gate, limit);
    ended.fetch_add(1, SeqCst);
}

// Starts the threads that move messages on.
fn start_movers<'s, E, R, F, M>(
    scope: &Scope<'s, E>,
    rt: &'s R,
    system: &'s System<F, All<M>>,
    movers: Movers,
    jobs: usize,
    ended: &'s AtomicUsize,
    limit: u64,
) -> bool
where
    R: Wait + Sync,
    F: MissFile + Send,
    M: SystemKeys + Send + Sync,
{
    let mut all = true;
    for _ in 0..movers.count() {
        if scope
            .spawn(move || move_on(rt, system, jobs, ended, limit))
            .is_err()
        {
            all = false;
        }
    }
    all
}
