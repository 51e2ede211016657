// Setup: a fresh state from a setup record.
ghost use Rattle.std.specs.Prelude.{◌≡◌};
ghost use Rattle.engine.specs.Calls.{fresh_of, setup_of};
ghost use Rattle.records.specs.Inner.{Sized};

use crate::{Engine, Outcome};

impl Engine {
    // The state that a record gives that was checked.
    #[tactic(auto, unfolding(crate::specs::Calls::fresh_of))]
    fn fresh(rec: &[u8]) -> Engine
        requires { Sized rec.now }
        ensures { result ≡ fresh_of rec.now }
    {
        let words = usize::from(rec[5]);
        let values = 6 + words;
        let turns = 6 + 5 * words;
        Engine {
            locks: rec[4],
            words: rec[5],
            word: arrays::laid::words_from(&rec[6..values], &rec[values..turns]),
            lock: arrays::laid::locks_from(&rec[turns..]),
            ..Engine::blank()
        }
    }

    // A fresh state; a refused setup gives the blank one. Refused: 5, 6, 5, 12 for L then W, 5, 12 for the lowest faulty byte.
    #[tactic(auto, unfolding(crate::specs::Calls::setup_of))]
    pub fn setup(rec: &[u8]) -> Outcome
        ensures { result ≡ setup_of rec.now }
    {
        let told = records::setup::setup_told(rec);
        let engine = match told {
            Ok(()) => Engine::fresh(rec),
            Err(_) => Engine::blank(),
        };
        Outcome { engine, told }
    }
}
