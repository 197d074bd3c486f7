//! Reads rows, each a name, a tab and a question to a class map and a grouping of its tags, to a pool of tags, to what
//! participants are told or to the rules of a pair, and prints the answers.
//!
//! What a row changes stands for the next ones. Prefixes of 8 bits are written by their first octets.
#![tactic(auto)]

ghost use Rattle.std.specs.Prelude.{◌≡◌};

mod blocks;
mod classes;
mod counter;
mod pools;
mod queues;
mod signatures;
mod words;
mod wrong;

use advert_queue::Adverts;
use anyhow::Result;
use counter::Counter;
use next_hop_pool::Pool;
use prefix_classes::{ClassMap, Grouping};
use std::alloc::Global;
use std::marker::Brand;
use std::sync::ledger::{Blank, Ledger};
use words::first_word;
use wrong::Wrong;

/// What stands from one row to the next.
#[derive(Drop)]
struct Stand {
    classes: ClassMap,
    grouping: Grouping,
    pool: Pool,
    adverts: Adverts,
}

impl Stand {
    fn new(alloc: Global) -> Stand {
        Stand {
            classes: ClassMap::new(alloc),
            grouping: Grouping::new(alloc),
            pool: Pool::none(alloc),
            adverts: Adverts::new(alloc),
        }
    }

    fn of_classes<L: Ledger>(
        &mut self,
        alloc: Global,
        counter: &mut Counter<L>,
        question: &str,
    ) -> std::result::Result<String, Wrong> {
        let (word, rest) = first_word(question);
        match word {
            "new" => {
                *self = Stand::new(alloc);
                classes::size(alloc, &self.classes)
            }
            "reserve" => classes::reserve(alloc, &mut self.classes, rest),
            "give" => classes::give(alloc, &mut self.classes, rest),
            "fill" => classes::fill(alloc, &mut self.classes, rest),
            "size" => classes::size(alloc, &self.classes),
            "tag" => classes::tag_of(alloc, &self.classes, rest),
            "members" => classes::members(alloc, &self.classes, rest),
            "next" => classes::next(alloc, &self.classes, rest),
            "leave" => classes::leave(alloc, &mut self.classes, rest),
            "forget" => classes::forget(alloc, &mut self.classes, rest),
            "place" => classes::place(alloc, &self.classes, &mut self.grouping, counter, rest),
            "out" => classes::take_out(alloc, &mut self.grouping, rest),
            "merge" => classes::merge(alloc, &mut self.classes, counter),
            _ => Err(Wrong::Row),
        }
    }

    fn of_pool(&mut self, alloc: Global, question: &str) -> std::result::Result<String, Wrong> {
        let (word, rest) = first_word(question);
        match word {
            "new" => pools::start(alloc, &mut self.pool, rest),
            "free" => pools::free(alloc, &self.pool),
            "least" => pools::take_least(alloc, &mut self.pool),
            "next" => pools::next(alloc, &self.pool, rest),
            "back" => pools::give_back(alloc, &mut self.pool, rest),
            _ => Err(Wrong::Row),
        }
    }

    fn of_adverts(&mut self, alloc: Global, question: &str) -> std::result::Result<String, Wrong> {
        let (word, rest) = first_word(question);
        match word {
            "push" => queues::push(alloc, &mut self.adverts),
            "reserve" => queues::reserve(alloc, &mut self.adverts, rest),
            "offer" => queues::offer(alloc, &mut self.adverts, rest),
            "peek" => queues::peek(alloc, &self.adverts, rest),
            "take" => queues::take(alloc, &mut self.adverts, rest),
            "tells" => queues::tells(alloc, &self.adverts, rest),
            _ => Err(Wrong::Row),
        }
    }

    fn answer<L: Ledger>(
        &mut self,
        alloc: Global,
        counter: &mut Counter<L>,
        question: &str,
    ) -> std::result::Result<String, Wrong> {
        let (word, rest) = first_word(question);
        match word {
            "classes" => self.of_classes(alloc, counter, rest),
            "pool" => self.of_pool(alloc, rest),
            "adverts" => self.of_adverts(alloc, rest),
            "rules" => blocks::rules(alloc, counter, rest),
            _ => Err(Wrong::Row),
        }
    }
}

fn print_row<L: Ledger>(
    rt: &HostRuntime,
    stand: &mut Stand,
    counter: &mut Counter<L>,
    row: &str,
) -> Result<()> {
    let (name, question) = row.split_once('\t').unwrap_or(("", row));
    match stand.answer(rt.alloc(), counter, question) {
        Ok(text) => println!(rt; "{name}: {text}")?,
        Err(Wrong::Row) => println!(rt; "{name}: no question")?,
        Err(Wrong::Memory) => println!(rt; "{name}: no memory")?,
    }
    Ok(())
}

fn start<L: Ledger>(rt: &HostRuntime, blank: Blank) -> Result<()>
    requires name { blank.name ≡ L.name }
    requires parts { blank.parts ≡ L.parts }
    requires whole { blank.parts ≡ 1 }
{
    let mut counter: Counter<L> = Counter::new(rt, blank);
    let mut stand = Stand::new(rt.alloc());
    for row in rt.lines(rt.alloc()) {
        let row = row?;
        print_row(rt, &mut stand, &mut counter, row.as_str())?;
    }
    Ok(())
}

fn main(rt: HostRuntime) -> Result<()> {
    start::<Brand>(&rt, Blank::new(1))
}
