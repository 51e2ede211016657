// One try, step by step: each line of document 01's list on the pieces that it touches.
ghost use Rattle.std.specs.Prelude.{◌≡◌};
ghost use Rattle.steps.specs.Try.{start_of, onto_of, logged_of, to_of, at_of, look_step, grab_step, look_again_step, read_mark_step, read_step, follow_step, commit_step, swap_step, mark_step, release_step, answer_of, run_step, effect_of};

use crate::{Point, Run, Stage, State, View};
use parts::{Answer, Asks, Follows, LAST_TURN, LockWord, Reading, Registers};

impl Run {
    // From instruction 0 with registers 0 and log place 0.
    pub fn start(sheet: u8, won: u32) -> Run
        ensures { result ≡ start_of sheet won }
    {
        Run {
            sheet,
            won,
            next: 0,
            place: 0,
            registers: Registers {
                r0: 0,
                r1: 0,
                r2: 0,
                r3: 0,
            },
        }
    }

    // On to the next instruction, `over` passed over.
    pub fn onto(mut self, over: u8, registers: Registers) -> Run
        ensures { result ≡ onto_of self over registers }
    {
        self.next = self.next.wrapping_add(1).wrapping_add(over);
        self.registers = registers;
        self
    }

    // The log place rises by one.
    pub fn logged(mut self) -> Run
        ensures { result ≡ logged_of self }
    {
        self.place = self.place.wrapping_add(1);
        self
    }
}

// What the end of a run tells its worker.
#[tactic(auto, unfolding(crate::specs::Try::answer_of))]
pub fn answer(run: Run, own: u8, said: bool) -> Answer
    ensures { result ≡ answer_of run own said }
{
    if run.sheet != own {
        return Answer::NotTaken;
    }
    if said { Answer::RanYes } else { Answer::RanNo }
}

impl View {
    // The worker has made its step and is in this state.
    pub fn to(mut self, s: State) -> View
        ensures { result ≡ to_of self s }
    {
        self.worker = self.worker.moved(s);
        self
    }

    // The worker has made its step and goes on at this point.
    pub fn at(self, p: Point) -> View
        ensures { result ≡ at_of self p }
    {
        self.to(State::UnderWay(p))
    }

    // 1. Held: help that sheet. Free at the last turn: finish, worn. Free otherwise: grab.
    #[tactic(auto, unfolding(crate::specs::Try::look_step))]
    pub fn look(self) -> View
        ensures { result ≡ look_step self }
    {
        let LockWord { turn, holder } = self.lock;
        match holder {
            Some(s) => self.at(Point::Run(Run::start(s, turn), Stage::Read)),
            None if turn == LAST_TURN => self.to(State::Finished(Answer::Worn)),
            None => self.at(Point::Grab(turn)),
        }
    }

    // 2. The lock word becomes the own sheet's if it is still what Look saw.
    #[tactic(auto, unfolding(crate::specs::Try::grab_step))]
    pub fn grab(mut self, seen: u32) -> View
        ensures { result ≡ grab_step self seen }
    {
        self.lock = self.lock.grab(seen, self.worker.own);
        self.at(Point::LookAgain(seen.wrapping_add(1)))
    }

    // 3. Remember the lock word.
    #[tactic(auto, unfolding(crate::specs::Try::look_again_step))]
    pub fn look_again(self, won: u32) -> View
        ensures { result ≡ look_again_step self won }
    {
        self.at(Point::ReadMark(self.lock, won))
    }

    // 4. Marked, or the own sheet was seen: run it. Another sheet was seen: help it. Else finish, not taken.
    #[tactic(auto, unfolding(crate::specs::Try::read_mark_step))]
    pub fn read_mark(self, seen: LockWord, won: u32) -> View
        ensures { result ≡ read_mark_step self seen won }
    {
        let own = self.worker.own;
        if self.done || seen.holder == Some(own) {
            return self.at(Point::Run(Run::start(own, won), Stage::Read));
        }
        match seen.holder {
            None => self.to(State::Finished(Answer::NotTaken)),
            Some(s) => self.at(Point::Run(Run::start(s, seen.turn), Stage::Read)),
        }
    }

    // 5, the first step of an instruction: set, add, sub, skip and halt are done with it; load, store and cam read the word.
    #[tactic(auto, unfolding(crate::specs::Try::read_step))]
    pub fn read(self, run: Run) -> View
        ensures { result ≡ read_step self run }
    {
        match self.instr.asks(run.registers) {
            Asks::Halt(said) => self.at(Point::Run(run, Stage::Mark(said))),
            Asks::Go(registers, over) => self.at(Point::Run(
                run.onto(over, registers),
                Stage::Read,
            )),
            Asks::Touch(_) => self.at(Point::Run(run, Stage::Commit(self.word.reading()))),
        }
    }

    // What follows once the value of an instruction's word is committed: the next instruction, or the swap.
    #[tactic(auto, unfolding(crate::specs::Try::follow_step))]
    pub fn follow(self, run: Run, held: Reading) -> View
        ensures { result ≡ follow_step self run held }
    {
        match self.instr.follows(run.registers, held.value) {
            Follows::Done(registers) => self.at(Point::Run(run.onto(0, registers), Stage::Read)),
            Follows::Swap(new) => self.at(Point::Run(run, Stage::Swap(held, new))),
        }
    }

    // 5, commit: the worker goes on with what the entry holds, and the place rises by one. It counts the entry if it filled it.
    #[tactic(auto, unfolding(crate::specs::Try::commit_step))]
    pub fn commit(mut self, run: Run, read: Reading) -> View
        ensures { result ≡ commit_step self run read }
    {
        let found = self.entry;
        self.entry = found.commit(read);
        self.worker = self.worker.counted(found.is_first());
        self.follow(run.logged(), found.holds(read))
    }

    // 5, swap.
    #[tactic(auto, unfolding(crate::specs::Try::swap_step))]
    pub fn swap(mut self, run: Run, entry: Reading, new: u32) -> View
        ensures { result ≡ swap_step self run entry new }
    {
        self.word = self.word.swap(entry, new);
        self.at(Point::Run(run.onto(0, run.registers), Stage::Read))
    }

    // 6. The sheet is done.
    #[tactic(auto, unfolding(crate::specs::Try::mark_step))]
    pub fn mark(mut self, run: Run, said: bool) -> View
        ensures { result ≡ mark_step self run said }
    {
        self.done = true;
        self.at(Point::Run(run, Stage::Release(said)))
    }

    // 7. The lock word is free again if that sheet still holds it as it won it. Finish: the own sheet ran; a helped one, not taken.
    #[tactic(auto, unfolding(crate::specs::Try::release_step))]
    pub fn release(mut self, run: Run, said: bool) -> View
        ensures { result ≡ release_step self run said }
    {
        self.lock = self.lock.release(run.won, run.sheet);
        self.to(State::Finished(answer(run, self.worker.own, said)))
    }

    // One step of a run that is at this stage.
    pub fn run_on(self, run: Run, at: Stage) -> View
        ensures { result ≡ run_step at run self }
    {
        match at {
            Stage::Read => self.read(run),
            Stage::Commit(read) => self.commit(run, read),
            Stage::Swap(entry, new) => self.swap(run, entry, new),
            Stage::Mark(said) => self.mark(run, said),
            Stage::Release(said) => self.release(run, said),
        }
    }

    // One step of a worker that is at this point. A match on an enum, here and by the stage: a point is copied into a state, which no closure is.
    #[tactic(auto, unfolding(crate::specs::Try::effect_of))]
    pub fn step(self, p: Point) -> View
        ensures { result ≡ effect_of p self }
    {
        match p {
            Point::Look => self.look(),
            Point::Grab(seen) => self.grab(seen),
            Point::LookAgain(won) => self.look_again(won),
            Point::ReadMark(seen, won) => self.read_mark(seen, won),
            Point::Run(run, at) => self.run_on(run, at),
        }
    }
}
