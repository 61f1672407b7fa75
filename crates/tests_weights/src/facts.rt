ghost use Rattle.semiring_laws.specs.Semiring.{Fits, FitsMap};
ghost use Rattle.genkill_weights.specs.GenKill.{genkill_operations};

use genkill_weights::{
    GenKill, GenKillW, MaskMap, equal_weights_are_equal_functions, restored_facts_are_the_callers,
    weights_are_functions, weights_are_their_effects, weights_have_their_facts, widths_are_least,
    with_width, words_for,
};
use semiring_laws::Semiring;
use std::alloc::Global;
use std::test::Fail;
use wpds_base::OutOfMemory;

// What a semiring makes of two weights: their combine, their extend, what the second makes of the first, whether they are
// equal, whether the first is zero.
#[derive(Drop)]
struct Answers<W> {
    combined: W,
    extended: W,
    lowered: Option<W>,
    same: bool,
    is_zero: bool,
}

fn answers_for<S: Semiring>(
    alloc: Global,
    semiring: &S,
    a: &S::W,
    b: &S::W,
) -> Result<Answers<S::W>, OutOfMemory>
    requires left { Fits (S.operations semiring.now) a.now }
    requires right { Fits (S.operations semiring.now) b.now }
{
    let a = semiring.copy(alloc, a)?;
    let a = semiring.after(alloc, &semiring.plain(), &a)?;
    Ok(Answers {
        combined: semiring.combine(alloc, &a, b)?,
        extended: semiring.extend(alloc, &a, b)?,
        lowered: semiring.lowered(alloc, &a, b)?,
        same: semiring.same(&a, b),
        is_zero: semiring.is_zero(&a),
    })
}

fn neutral<S: Semiring>(alloc: Global, semiring: &S) -> Result<(S::W, S::W), OutOfMemory> {
    Ok((semiring.zero(alloc)?, semiring.one(alloc)?))
}

fn alike<S: Semiring>(one: &S, other: &S, map: &S::Ret) -> (bool, bool)
    requires { FitsMap (S.operations one.now) map.now }
{
    (one.same_kind(other), one.same_map(map, &one.plain()))
}

// What the function of a weight makes of each set of the facts 0, 1 and 2, and of no other fact. A set is a number: bit `f`
// says whether fact `f` is in it.
fn on_all_sets(weight: &GenKillW<1>) -> [u64; 8] {
    let mut after = [0; 8];
    if let GenKillW::Map { keep, gens } = weight {
        for set in 0..8 {
            after[set] = set as u64 & keep[0] | gens[0];
        }
    }
    after
}

// Two weights, by the facts that they generate and kill, and facts that are restored.
#[derive(Clone, Copy)]
struct Row<'a> {
    first: (&'a [u32], &'a [u32]),
    second: (&'a [u32], &'a [u32]),
    restored: &'a [u32],
    // What the first and then the second make of each set, what one or the other makes of it, and what a call of the first
    // makes of it where these facts are restored.
    extended: [u64; 8],
    combined: [u64; 8],
    returned: [u64; 8],
}

// Each fact that is kept, generated and killed by one weight is kept, generated and killed by another in some row. The sets
// were computed by a program of another make, a dozen lines of Python over its own sets of numbers, which takes the killed
// facts from a set and then adds the generated.
#[test]
fn three_facts(rt: HostRuntime) -> Result<(), Fail> {
    let alloc = rt.alloc();
    let semiring = GenKill::<1>;
    let rows = [
        Row {
            first: (&[1], &[2]),
            second: (&[1], &[2]),
            restored: &[0, 1, 2],
            extended: [2, 3, 2, 3, 2, 3, 2, 3],
            combined: [2, 3, 2, 3, 2, 3, 2, 3],
            returned: [0, 1, 2, 3, 4, 5, 6, 7],
        },
        Row {
            first: (&[1], &[2]),
            second: (&[0], &[1]),
            restored: &[],
            extended: [1, 1, 1, 1, 1, 1, 1, 1],
            combined: [3, 3, 3, 3, 7, 7, 7, 7],
            returned: [2, 3, 2, 3, 2, 3, 2, 3],
        },
        Row {
            first: (&[1], &[2]),
            second: (&[2], &[0]),
            restored: &[1],
            extended: [6, 6, 6, 6, 6, 6, 6, 6],
            combined: [6, 7, 6, 7, 6, 7, 6, 7],
            returned: [0, 1, 2, 3, 0, 1, 2, 3],
        },
        Row {
            first: (&[0], &[1]),
            second: (&[], &[]),
            restored: &[0, 1],
            extended: [1, 1, 1, 1, 5, 5, 5, 5],
            combined: [1, 1, 3, 3, 5, 5, 7, 7],
            returned: [0, 1, 2, 3, 4, 5, 6, 7],
        },
    ];
    for row in &rows {
        let first = semiring.make(row.first.0, row.first.1);
        let second = semiring.make(row.second.0, row.second.1);
        let made = answers_for(alloc, &semiring, &first, &second)?;
        let restore = semiring.restore(row.restored);
        let returned = semiring.after(alloc, &restore, &first)?;
        assert_eq!(rt; on_all_sets(&made.extended), row.extended);
        assert_eq!(rt; on_all_sets(&made.combined), row.combined);
        assert_eq!(rt; on_all_sets(&returned), row.returned);
        let same = row.first == row.second;
        assert_eq!(rt; (made.same, made.is_zero), (same, false));
        // Where the two differ, the second adds something to the first.
        assert_eq!(rt; made.lowered, if same { None } else { Some(made.combined) });
        assert_eq!(rt; alike(&semiring, &semiring, &restore), (true, false));
    }
    Ok(())
}

#[test]
fn no_run_and_the_empty_run(rt: HostRuntime) -> Result<(), Fail> {
    let alloc = rt.alloc();
    let semiring = GenKill::<2>;
    let (zero, one) = neutral(alloc, &semiring)?;
    let (keep, gens) = ([u64::MAX; 2], [0; 2]);
    assert_eq!(rt; zero, GenKillW::Zero);
    assert_eq!(rt; one, GenKillW::Map { keep, gens });
    assert_eq!(rt; alike(&semiring, &semiring, &MaskMap::Plain), (true, true));
    assert_eq!(rt; (zero.generates(0), zero.kills(0)), (false, false));
    Ok(())
}

#[test]
fn zero_absorbs(rt: HostRuntime) -> Result<(), Fail> {
    let alloc = rt.alloc();
    let semiring = GenKill::<2>;
    let made = semiring.make(&[64], &[0, 127]);
    let keep = [0xffff_ffff_ffff_fffe, 0x7fff_ffff_ffff_ffff];
    let gens = [0, 1];
    assert_eq!(rt; made, GenKillW::Map { keep, gens });
    let zero = GenKillW::Zero;
    let rows = [
        (
            answers_for(alloc, &semiring, &zero, &made)?,
            Some(made),
            true,
        ),
        (answers_for(alloc, &semiring, &made, &zero)?, None, false),
    ];
    for (answers, lowered, is_zero) in &rows {
        assert_eq!(rt; answers.combined, made);
        assert_eq!(rt; answers.extended, GenKillW::Zero);
        assert_eq!(rt; answers.lowered, *lowered);
        assert_eq!(rt; (answers.same, answers.is_zero), (false, *is_zero));
    }
    Ok(())
}

// The empty run before or after others changes nothing, and so does one that a weight has already.
#[test]
fn the_other_weight_stays(rt: HostRuntime) -> Result<(), Fail> {
    let alloc = rt.alloc();
    let semiring = GenKill::<1>;
    let one: (&[u32], &[u32]) = (&[], &[]);
    let some: (&[u32], &[u32]) = (&[3], &[5]);
    let either: (&[u32], &[u32]) = (&[3], &[]);
    // two weights, their extend and their combine
    let rows = [
        (some, one, some, either),
        (one, some, some, either),
        (either, some, some, either),
        (some, either, some, either),
        (some, some, some, some),
    ];
    for (a, b, extended, combined) in rows {
        let first = semiring.make(a.0, a.1);
        let second = semiring.make(b.0, b.1);
        let made = answers_for(alloc, &semiring, &first, &second)?;
        let combined = semiring.make(combined.0, combined.1);
        assert_eq!(rt; made.extended, semiring.make(extended.0, extended.1));
        assert_eq!(rt; made.combined, combined);
        assert_eq!(rt; made.lowered.is_some(), combined != first);
    }
    Ok(())
}

// Fact 1 is killed and then generated, and there is no room for the facts 64 and 4294967295.
#[test]
fn facts_in_both_lists_and_beyond_the_width(rt: HostRuntime) {
    let semiring = GenKill::<1>;
    let made = semiring.make(&[1, 64], &[1, 2, u32::MAX]);
    assert_eq!(rt; made, semiring.make(&[1], &[2]));
    assert_eq!(rt; semiring.restore(&[3, 64]), semiring.restore(&[3]));
    for (fact, generated, killed) in [
        (0, false, false),
        (1, true, false),
        (2, false, true),
        (64, false, false),
        (usize::MAX, false, false),
    ] {
        assert_eq!(rt; made.generates(fact), generated, "{fact}");
        assert_eq!(rt; made.kills(fact), killed, "{fact}");
    }
}

fn crosses<T: Send + Sync>(_weight: &T) {}

// Workers share these weights.
#[test]
fn weights_cross_threads() {
    crosses(&GenKillW::<16>::Zero);
}

#[test]
fn laws() {
    weights_are_functions();
    equal_weights_are_equal_functions();
    restored_facts_are_the_callers();
    weights_are_their_effects();
    weights_have_their_facts();
    widths_are_least();
}

// Whether the last of so many facts is killed by one weight, and generated by another and by what both make one after the
// other, which change no other fact.
fn last_is_told<const N: usize>(
    alloc: Global,
    kill: &GenKillW<N>,
    generate: &GenKillW<N>,
    facts: u32,
) -> Result<bool, OutOfMemory>
    requires kill { Fits (genkill_operations N) kill.now }
    requires generate { Fits (genkill_operations N) generate.now }
{
    let made = answers_for(alloc, &GenKill::<N>, kill, generate)?;
    let both = &made.extended;
    for fact in 0..facts as usize {
        let last = fact + 1 == facts as usize;
        if kill.kills(fact) != last || kill.generates(fact) {
            return Ok(false);
        }
        if generate.kills(fact) || generate.generates(fact) != last {
            return Ok(false);
        }
        if both.kills(fact) || both.generates(fact) != last {
            return Ok(false);
        }
    }
    Ok(!made.same && !made.is_zero)
}

#[test]
fn widths(rt: HostRuntime) -> Result<(), Fail> {
    let alloc = rt.alloc();
    assert_eq!(rt; words_for(0), 1);
    let rows = [
        (1, 1),
        (64, 1),
        (65, 2),
        (128, 2),
        (129, 4),
        (256, 4),
        (257, 8),
        (512, 8),
        (513, 16),
        (1024, 16),
    ];
    for (facts, width) in rows {
        assert_eq!(rt; words_for(facts), width, "at {facts}");
        assert!(rt; facts > 0);
        let last = [facts - 1];
        let is_told = with_width!(facts, genkill => {
            let kill = genkill.make(&[], &last);
            last_is_told(alloc, &kill, &genkill.make(&last, &[]), facts)?
        });
        assert!(rt; is_told, "at {facts}");
    }
    Ok(())
}
