// Step: the pieces that a step can touch are read out of the state, the step is done to them, and they are put back.
ghost use Rattle.std.specs.Prelude.{◌≡◌, ◌<◌};
ghost use Rattle.parts.specs.Numbers.{workers, entries};
ghost use Rattle.engine.specs.Step.{instr_at, entry_at, placed_of, places_of, view_at, put_at, stepped_of};
ghost use Rattle.engine.specs.Inner.{Within};
ghost use Rattle.engine.specs.Calls.{step_of};

use crate::{Engine, Places};
use parts::{INSTRUCTIONS, Instr, LOCKS, Refusal, SHEETS, WORDS, WORKERS};
use steps::{Point, Spot, State, View, Worker};

// Where the instruction of a step stands that is at this spot.
pub fn instr_at(spot: Spot) -> usize
    ensures { (result ≡ instr_at spot) × (result < entries) }
{
    let sheet = usize::from(spot.sheet) % SHEETS;
    sheet * INSTRUCTIONS + usize::from(spot.next) % INSTRUCTIONS
}

// Where its log entry stands.
pub fn entry_at(spot: Spot) -> usize
    ensures { (result ≡ entry_at spot) × (result < entries) }
{
    let sheet = usize::from(spot.sheet) % SHEETS;
    sheet * INSTRUCTIONS + usize::from(spot.place) % INSTRUCTIONS
}

// Where the pieces of a step stand: of worker w, which is k, at this spot, whose instruction is i.
pub fn placed(w: usize, k: Worker, spot: Spot, i: Instr) -> Places
    requires { w < workers }
    ensures { (result ≡ placed_of w k spot i) × Within result }
{
    Places {
        worker: w,
        lock: usize::from(k.lock) % LOCKS,
        word: usize::from(i.word()) % WORDS,
        entry: entry_at(spot),
        instr: instr_at(spot),
        sheet: usize::from(spot.sheet) % SHEETS,
    }
}

impl Engine {
    // Of worker w, which is at point p. `step` has tested that there is such a worker; a type for its number would be made there and nowhere else.
    #[tactic(auto, unfolding(crate::specs::Step::places_of))]
    fn places(&self, w: usize, p: Point) -> Places
        requires { w < workers }
        ensures value { result ≡ places_of self.now w p }
        ensures within { Within result }
    {
        let k = self.worker[w];
        let spot = p.spot(k.own);
        placed(w, k, spot, self.program[instr_at(spot)])
    }

    #[tactic(auto, unfolding(crate::specs::Step::view_at))]
    fn view(&self, at: Places) -> View
        requires { Within at }
        ensures { result ≡ view_at self.now at }
    {
        View {
            worker: self.worker[at.worker],
            lock: self.lock[at.lock],
            word: self.word[at.word],
            entry: self.entry[at.entry],
            instr: self.program[at.instr],
            done: self.sheet[at.sheet].done,
        }
    }

    #[tactic(auto, unfolding(crate::specs::Step::put_at))]
    fn put(&mut self, at: Places, v: View)
        requires { Within at }
        ensures { self.new ≡ put_at self.old at v }
    {
        self.worker[at.worker] = v.worker;
        self.lock[at.lock] = v.lock;
        self.word[at.word] = v.word;
        self.entry[at.entry] = v.entry;
        self.sheet[at.sheet].done = v.done;
    }

    fn stepped(&mut self, w: usize, p: Point)
        requires { w < workers }
        ensures { self.new ≡ stepped_of self.old w p }
    {
        let at = self.places(w, p);
        self.put(at, self.view(at).step(p));
    }

    // One step of worker w's try. Refused: 1, 11, 4.
    #[tactic(auto, unfolding(crate::specs::Calls::step_of, steps::specs::Worker::step_by_state))]
    pub fn step(&mut self, w: u32) -> Result<(), Refusal>
        ensures value { result ≡ (step_of self.old w).told }
        ensures after { self.new ≡ (step_of self.old w).engine }
    {
        let i = w as usize;
        if WORKERS <= i {
            return Err(Refusal::NoWorker);
        }
        match self.worker[i].state {
            State::Idle => Err(Refusal::WorkerIdle),
            State::Finished(_) => Err(Refusal::NotCollected),
            State::UnderWay(p) => {
                self.stepped(i, p);
                Ok(())
            }
        }
    }
}
