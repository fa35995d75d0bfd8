ghost use Rattle.std.specs.Prelude.{ℕ, ◌+◌, ◌%◌, ◌^◌};
ghost use Rattle.rand_core.specs.Steps.{stream_of, steps_u32};

use crate::asserting::assert_same;
use draw_order::{order, words_from};
use rand_core::Rng;
use rand_core::utils::{self, NextWord};
use room_types::{Grade, PersonId, Word};
use std::alloc::Global;
use std::marker::Model;
use std::process::Abort;
use std::test::Fail;

// A random number generator that returns 1, 2, 3 and so on, as words of 32 bits.
#[derive(Drop)]
struct Counting {
    last: u32,
}

impl Model for Counting {
    ghost Value = { ℕ };

    ghost view = { λ a. a.last };
}

impl NextWord<u32> for Counting {
    ghost step = { λ last. ((last + 1) % 2 ^ 32, (last + 1) % 2 ^ 32) };

    fn next_word(&mut self) -> u32 {
        self.last = self.last.wrapping_add(1);
        self.last
    }
}

impl Rng for Counting {
    ghost stream = { stream_of (steps_u32 (λ last. ((last + 1) % 2 ^ 32, (last + 1) % 2 ^ 32))) };

    fn next_u32(&mut self) -> u32 {
        self.next_word()
    }

    fn next_u64(&mut self) -> u64 {
        utils::next_u64_via_u32(self)
    }

    fn fill_bytes(&mut self, dst: &mut [u8]) {
        utils::fill_bytes_via_u32(self, dst)
    }
}

#[test]
fn draws_the_low_half_of_a_word_first(rt: HostRuntime) -> Result<(), Fail> {
    let mut generator = Counting { last: 0 };
    let words = words_from(rt.alloc(), &mut generator, 2)?;
    assert!(rt;
        matches!(words.as_slice(), [first, second]
            if first.value() == 0x0000_0002_0000_0001 && second.value() == 0x0000_0004_0000_0003)
    );
    assert_same!(rt; generator.next_u32(), 5);
    Ok(())
}

#[test]
fn draws_no_words_for_nobody(rt: HostRuntime) -> Result<(), Fail> {
    let mut generator = Counting { last: 0 };
    let words = words_from(rt.alloc(), &mut generator, 0)?;
    assert!(rt; words.is_empty());
    assert_same!(rt; generator.next_u32(), 1);
    Ok(())
}

#[test]
fn orders_equal_words_by_identifier(rt: HostRuntime) -> Result<(), Fail> {
    let alloc = rt.alloc();
    let tickets = vec![in alloc;
        (person(&rt, alloc, "E1"), Grade::first(), Word::new(5)),
        (person(&rt, alloc, "E2"), Grade::first(), Word::new(5)),
        (person(&rt, alloc, "E3"), Grade::first(), Word::new(0)),
    ]?;
    let people = order(alloc, &tickets)?;
    assert!(rt;
        matches!(people.as_slice(), [first, second, third]
            if first.as_str() == "E3" && second.as_str() == "E1" && third.as_str() == "E2")
    );
    Ok(())
}

// The person with the least word has grade 1, and so comes after two people of grade 0.
#[test]
fn orders_by_grade_before_word(rt: HostRuntime) -> Result<(), Fail> {
    let alloc = rt.alloc();
    let tickets = vec![in alloc;
        (person(&rt, alloc, "E1"), Grade::first(), Word::new(5)),
        (person(&rt, alloc, "E2"), Grade::first(), Word::new(5)),
        (person(&rt, alloc, "E3"), grade(&rt, "1"), Word::new(0)),
    ]?;
    let people = order(alloc, &tickets)?;
    assert!(rt;
        matches!(people.as_slice(), [first, second, third]
            if first.as_str() == "E1" && second.as_str() == "E2" && third.as_str() == "E3")
    );
    Ok(())
}

fn grade(rt: &impl Abort, text: &str) -> Grade {
    match Grade::read(text) {
        Ok(grade) => grade,
        Err(_) => panic!(rt; "{text} is no grade"),
    }
}

fn person(rt: &impl Abort, alloc: Global, text: &str) -> PersonId {
    match PersonId::read(alloc, text) {
        Ok(person) => person,
        Err(_) => panic!(rt; "{text} is no identifier"),
    }
}
