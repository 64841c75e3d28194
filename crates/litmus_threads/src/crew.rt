ghost use Rattle.std.specs.Prelude.{◌≡◌, ◌∷◌, [], ◌++◌, List, IfOk, IsOkAnd, OnOk, map};
ghost use Rattle.core_thread_system.specs.Core.{CoreView, core_of};
ghost use Rattle.litmus_threads.specs.Crew.{AreDealt};
ghost use Rattle.litmus_threads.specs.Program.{generator_of};

use super::program::program_of;
use super::threads::thread_at;
use address_map::CoreId;
use core_thread::Job;
use core_thread_system::{All, Core, Outcome, PortSet, Step, System, SystemKeys};
use litmus_test::Thread;
use mshr_file::MissFile;
use rand_core::SeedableRng;
use rand_xoshiro::Xoshiro256PlusPlus;
use slice_answer::Refused;
use std::alloc::{AllocError, Global};

/// The cores of a machine: those that have a thread, each in a job, and the others.
#[derive(Drop)]
pub(crate) struct Crew<'a, F: MissFile, M: SystemKeys> {
    pub jobs: Vec<Job<'a, F, All<M>>>,
    idle: Vec<Core<'a, F, All<M>>>,
}

impl<'a, F: MissFile, M: SystemKeys> Crew<'a, F, M> {
    /// Gives each core that has a thread a job with a program of the thread, for this round.
    pub(crate) fn deal(
        alloc: Global,
        system: &'a System<F, All<M>>,
        sets: Vec<PortSet<All<M>>>,
        threads: &[Thread],
        seed: u64,
        round: u64,
    ) -> Result<Crew<'a, F, M>, AllocError>
        ensures { IfOk result (λ crew. AreDealt threads.now seed round (map core_of sets.items)
            (map (λ job. job.core) crew.jobs.items) (map (λ job. job.program.items) crew.jobs.items) crew.idle.items) }
    {
        let mut crew = Crew {
            jobs: Vec::new(alloc),
            idle: Vec::new(alloc),
        };
        for set in sets {
            crew.take(alloc, Core::new(system, set), threads, seed, round)?;
        }
        Ok(crew)
    }

    // Takes one more core. Its turns are drawn from the seed, the round and its number.
    fn take(
        &mut self,
        alloc: Global,
        core: Core<'a, F, All<M>>,
        threads: &[Thread],
        seed: u64,
        round: u64,
    ) -> Result<(), AllocError>
        ensures { OnOk result ((cores : List CoreView) →
            AreDealt threads.now seed round cores (map (λ job. job.core) self.old.jobs.items)
            (map (λ job. job.program.items) self.old.jobs.items) self.old.idle.items →
            AreDealt threads.now seed round (cores ++ core.entry ∷ []) (map (λ job. job.core) self.new.jobs.items)
            (map (λ job. job.program.items) self.new.jobs.items) self.new.idle.items) }
    {
        let number = core.core();
        match thread_at(threads, number) {
            Some(thread) => {
                let mut words = generator_of(seed, round, number);
                let program = program_of(alloc, &thread.steps, &mut words);
                put_to_work(&mut self.jobs, core, program)?;
            }
            None => self.idle.push(core)?,
        }
        Ok(())
    }

    /// Whether each thread has done all its steps. Returns `Err` if one was refused because memory ran out.
    pub(crate) fn has_ended(&self) -> Result<bool, AllocError> {
        let mut all = true;
        for job in &self.jobs {
            match job.outcome {
                Outcome::Finished => {}
                Outcome::Refused(_, Refused::Memory) => return Err(AllocError),
                Outcome::Refused(..) | Outcome::Limit(_) | Outcome::NotRun => all = false,
            }
        }
        Ok(all)
    }

    /// Returns all its cores.
    pub(crate) fn cores(self) -> Result<Vec<Core<'a, F, All<M>>>, AllocError> {
        let Crew { jobs, idle } = self;
        let mut cores = idle;
        for job in jobs {
            cores.push(core_of(job))?;
        }
        Ok(cores)
    }
}

// The generator of a core's turns in a round: there are at most 64 cores, so each has a seed of its own in each.
fn generator_of(seed: u64, round: u64, core: CoreId) -> Xoshiro256PlusPlus
    ensures { result ≡ generator_of seed round core }
{
    let seed = seed
        .wrapping_add(round.wrapping_mul(64))
        .wrapping_add(u64::from(core.0));
    Xoshiro256PlusPlus::seed_from_u64(seed)
}

// Appends a job with this program, unless the allocation fails. Then the core is dropped in one call: a `?` would drop
// it part by part, each with a proof of its own.
fn put_to_work<'a, F: MissFile, M: SystemKeys>(
    jobs: &mut Vec<Job<'a, F, All<M>>>,
    core: Core<'a, F, All<M>>,
    program: Result<Vec<Step>, AllocError>,
) -> Result<(), AllocError>
    ensures { OnOk result (IsOkAnd program (λ program.
        (map (λ job. job.core) jobs.new.items ≡ map (λ job. job.core) jobs.old.items ++ core.entry ∷ [])
        × (map (λ job. job.program.items) jobs.new.items
        ≡ map (λ job. job.program.items) jobs.old.items ++ program.items ∷ []))) }
{
    match program {
        Ok(program) => jobs.push(Job {
            core,
            program,
            outcome: Outcome::NotRun,
        })?,
        Err(error) => {
            drop(core);
            return Err(error);
        }
    }
    Ok(())
}

fn core_of<'a, F: MissFile, M: SystemKeys>(job: Job<'a, F, All<M>>) -> Core<'a, F, All<M>> {
    let Job { core, program, .. } = job;
    drop(program);
    core
}
