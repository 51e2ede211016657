// What a call told, as the numbers of a reply: each conversion is the definition of specs/Door.antt that it names. A reply's zeros are written
// out, as C reads them; `Default` would name the same fields once more.
ghost use Rattle.std.specs.Prelude.{◌≡◌, ◌%◌, ◌^◌};
ghost use Rattle.parts.specs.Pick.{pick};
ghost use Rattle.parts.specs.Told.{answer_number};
ghost use Rattle.parts.specs.declared.Answer.TheVariants.{RanYes, RanNo};
ghost use Rattle.book.specs.Book.{some_number};
ghost use Rattle.door.specs.Door.{short_reply, refusal_reply, told_fields, no_answer, collected_fields, no_word, word_fields, no_lock, lock_word_fields, lock_fields, no_bytes, wrote_fields, no_run, plain_fields, found_fields};

use crate::{BookFound, Collected, LockRead, Plain, Reply, WordRead, Wrote};
use alone::Ran;
use book::{Book, Found, NotFound};
use engine::Answered;
use parts::{Answer, LockWord, Refusal, Word};

// Fewer numbers than a state takes.
pub fn short() -> Reply
    ensures { result ≡ short_reply }
{
    Reply {
        number: 22,
        place: 0,
    }
}

// A place or a length in 32 bits.
fn low(n: usize) -> u32
    ensures { result ≡ n % 2 ^ 32 }
{
    (n % 4294967296) as u32
}

impl From<Refusal> for Reply {
    ghost from_gives = { λ r reply. reply ≡ refusal_reply r };

    #[tactic(auto, unfolding(crate::specs::Door::refusal_reply))]
    fn from(r: Refusal) -> Reply {
        Reply {
            number: r.number(),
            place: low(r.place()),
        }
    }
}

impl From<Result<(), Refusal>> for Reply {
    ghost from_gives = { λ told reply. reply ≡ told_fields told };

    fn from(told: Result<(), Refusal>) -> Reply {
        match told {
            Ok(()) => Reply {
                number: 0,
                place: 0,
            },
            Err(r) => Reply::from(r),
        }
    }
}

// Each reply that has more to tell has 0 there where the call was refused.
impl From<Reply> for Collected {
    ghost from_gives = { λ r reply. reply ≡ no_answer r };

    fn from(r: Reply) -> Collected {
        Collected {
            number: r.number,
            place: r.place,
            answer: 0,
            steps: 0,
            filled: 0,
        }
    }
}

impl From<Result<Answered, Refusal>> for Collected {
    ghost from_gives = { λ told reply. reply ≡ collected_fields told };

    fn from(told: Result<Answered, Refusal>) -> Collected {
        match told {
            Ok(x) => Collected {
                number: 0,
                place: 0,
                answer: x.answer.number(),
                steps: x.steps,
                filled: x.filled,
            },
            Err(r) => Collected::from(Reply::from(r)),
        }
    }
}

impl From<Reply> for WordRead {
    ghost from_gives = { λ r reply. reply ≡ no_word r };

    fn from(r: Reply) -> WordRead {
        WordRead {
            number: r.number,
            place: r.place,
            value: 0,
            count: 0,
            guard: 0,
        }
    }
}

impl From<Result<Word, Refusal>> for WordRead {
    ghost from_gives = { λ told reply. reply ≡ word_fields told };

    fn from(told: Result<Word, Refusal>) -> WordRead {
        match told {
            Ok(w) => WordRead {
                number: 0,
                place: 0,
                value: w.value,
                count: w.count,
                guard: u32::from(w.guard),
            },
            Err(r) => WordRead::from(Reply::from(r)),
        }
    }
}

impl From<Reply> for LockRead {
    ghost from_gives = { λ r reply. reply ≡ no_lock r };

    fn from(r: Reply) -> LockRead {
        LockRead {
            number: r.number,
            place: r.place,
            turn: 0,
            held: 0,
            sheet: 0,
        }
    }
}

impl From<LockWord> for LockRead {
    ghost from_gives = { λ l reply. reply ≡ lock_word_fields l };

    fn from(l: LockWord) -> LockRead {
        match l.holder {
            None => LockRead {
                number: 0,
                place: 0,
                turn: l.turn,
                held: 0,
                sheet: 0,
            },
            Some(s) => LockRead {
                number: 0,
                place: 0,
                turn: l.turn,
                held: 1,
                sheet: u32::from(s),
            },
        }
    }
}

impl From<Result<LockWord, Refusal>> for LockRead {
    ghost from_gives = { λ told reply. reply ≡ lock_fields told };

    fn from(told: Result<LockWord, Refusal>) -> LockRead {
        match told {
            Ok(l) => LockRead::from(l),
            Err(r) => LockRead::from(Reply::from(r)),
        }
    }
}

impl From<Reply> for Wrote {
    ghost from_gives = { λ r reply. reply ≡ no_bytes r };

    fn from(r: Reply) -> Wrote {
        Wrote {
            number: r.number,
            place: r.place,
            length: 0,
        }
    }
}

impl From<Result<usize, Refusal>> for Wrote {
    ghost from_gives = { λ told reply. reply ≡ wrote_fields told };

    fn from(told: Result<usize, Refusal>) -> Wrote {
        match told {
            Ok(n) => Wrote {
                number: 0,
                place: 0,
                length: low(n),
            },
            Err(r) => Wrote::from(Reply::from(r)),
        }
    }
}

impl From<Reply> for Plain {
    ghost from_gives = { λ r reply. reply ≡ no_run r };

    fn from(r: Reply) -> Plain {
        Plain {
            number: r.number,
            place: r.place,
            answer: 0,
            executed: 0,
        }
    }
}

// The answer of a job that ran.
fn ran_number(yes: bool) -> u32
    ensures { result ≡ pick yes (answer_number RanYes) (answer_number RanNo) }
{
    if yes {
        return Answer::RanYes.number();
    }
    Answer::RanNo.number()
}

impl From<Result<Ran, Refusal>> for Plain {
    ghost from_gives = { λ told reply. reply ≡ plain_fields told };

    fn from(told: Result<Ran, Refusal>) -> Plain {
        match told {
            Ok(x) => Plain {
                number: 0,
                place: 0,
                answer: ran_number(x.yes),
                executed: low(x.executed),
            },
            Err(r) => Plain::from(Reply::from(r)),
        }
    }
}

// The number of a book, 0 of none.
fn book_number(book: Option<Book>) -> u32
    ensures { result ≡ some_number book }
{
    match book {
        Some(book) => book.number(),
        None => 0,
    }
}

impl From<Result<Found, NotFound>> for BookFound {
    ghost from_gives = { λ search reply. reply ≡ found_fields search };

    fn from(search: Result<Found, NotFound>) -> BookFound {
        match search {
            Ok(f) => BookFound {
                number: 0,
                place: 0,
                book: f.book.number(),
                offset: low(f.from),
                length: low(f.length),
            },
            Err(n) => {
                let r = Reply::from(n.refusal);
                BookFound {
                    number: r.number,
                    place: r.place,
                    book: book_number(n.book),
                    offset: 0,
                    length: 0,
                }
            }
        }
    }
}
