// Collect, drop, and the two readers.
ghost use Rattle.std.specs.Prelude.{◌≡◌, ◌+◌, ◌%◌, ◌<◌};
ghost use Rattle.parts.specs.Numbers.{workers, most_locks, most_words};
ghost use Rattle.engine.specs.State.{with_worker};
ghost use Rattle.engine.specs.Calls.{collect_of, drop_of, read_word_of, read_lock_of};

use crate::{Answered, Engine, reads};
use parts::{LOCKS, LockWord, Refusal, WORDS, WORKERS, Word};
use steps::{State, Worker};

// How many locks there are, and how many words: two lines, which name what they count.
pub fn lock_count(locks: u8) -> usize
    ensures { result ≡ locks % (most_locks + 1) }
{
    usize::from(locks) % (LOCKS + 1)
}

pub fn word_count(words: u8) -> usize
    ensures { result ≡ words % (most_words + 1) }
{
    usize::from(words) % (WORDS + 1)
}

impl Engine {
    // The answer of worker w's try and its steps; the worker is idle. Refused: 1, 11, 3.
    #[tactic(auto, unfolding(crate::specs::Calls::collect_of, steps::specs::Worker::collect_by_state))]
    pub fn collect(&mut self, w: u32) -> Result<Answered, Refusal>
        ensures value { result ≡ (collect_of self.old w).told }
        ensures after { self.new ≡ (collect_of self.old w).engine }
    {
        let i = w as usize;
        if WORKERS <= i {
            return Err(Refusal::NoWorker);
        }
        let worker = self.worker[i];
        match worker.state {
            State::Idle => Err(Refusal::WorkerIdle),
            State::UnderWay(_) => Err(Refusal::WorkerUnderWay),
            State::Finished(answer) => {
                self.worker[i] = worker.collect();
                Ok(Answered {
                    answer,
                    steps: worker.steps,
                    filled: worker.filled,
                })
            }
        }
    }

    // Worker w is idle; a held lock stays held. Refused: 1, 11.
    #[tactic(auto, unfolding(crate::specs::Calls::drop_of, steps::specs::Worker::drop_by_state))]
    pub fn drop(&mut self, w: u32) -> Result<(), Refusal>
        ensures value { result ≡ (drop_of self.old w).told }
        ensures after { self.new ≡ (drop_of self.old w).engine }
    {
        let i = w as usize;
        if WORKERS <= i {
            return Err(Refusal::NoWorker);
        }
        match self.worker[i].state {
            State::Idle => Err(Refusal::WorkerIdle),
            State::UnderWay(_) | State::Finished(_) => {
                self.worker[i] = self.worker[i].drop();
                Ok(())
            }
        }
    }

    // A word's value, count and guard. Refused: 16.
    pub fn read_word(&self, word: u32) -> Result<Word, Refusal>
        ensures { result ≡ read_word_of self.now word }
    {
        reads::read_word(self, word)
    }

    // A lock's turn and the sheet that holds it, if any. Refused: 2.
    pub fn read_lock(&self, lock: u32) -> Result<LockWord, Refusal>
        ensures { result ≡ read_lock_of self.now lock }
    {
        reads::read_lock(self, lock)
    }
}
