// Whether no two used slots have the same ports. Each leaves a mark at its ports modulo a prime;
// where none finds its mark left already all are different. Those whose mark was left again are
// sorted and compared, so that no choice of ports costs more than a sort.
ghost use Rattle.std.specs.Prelude.{◌≡◌, not, ◌<◌, ◌≤◌, length, take, reverse};
ghost use Rattle.defs.specs.Limits.{max_slots};
ghost use Rattle.conn_map.specs.Table.{distinct, chosen};
ghost use Rattle.conn_map.specs.Distinct.{keys_to, twice, mark_count, mark_of, next_mark, marked, repeats, again};

use defs::limits;

// The places for marks, `markCount` of specs/Distinct.antt: of 1,024 random ports about 120 share
// theirs. A prime, so that all bits of both ports tell; one local port more is 2,852 places on.
const MARKS: usize = 8117;

// A mark that was left more than once.
const AGAIN: u8 = 2;

// `ports` and `used` go on as the two slices that are lent: a struct of both would say no more than
// `zip`, as no method hands out a chain of iterators.
pub(crate) fn are_distinct(ports: &[u64], used: &[u8]) -> bool
    requires { (length ports.now ≤ max_slots) × (length used.now ≡ length ports.now) }
    ensures { result ≡ distinct ports.now used.now }
{
    let mut marks = [0u8; MARKS];
    !mark(ports, used, &mut marks) || doubtful_distinct(ports, used, &marks)
}

// Each used slot leaves its mark; whether one finds it left already.
fn mark(ports: &[u64], used: &[u8], marks: &mut [u8; MARKS]) -> bool
    requires { length used.now ≡ length ports.now }
    ensures marks { marks.new ≡ marked marks.old (keys_to ports.now used.now (length ports.now)) }
    ensures repeats { result ≡ repeats marks.old (keys_to ports.now used.now (length ports.now)) }
{
    let mut found = false;
    for (key, used) in ports.iter().zip(used) {
        if *used != 0 {
            let at = mark_of(*key);
            found |= marks[at] != 0;
            marks[at] = next_mark(marks[at]);
        }
    }
    found
}

#[tactic(auto, unfolding(crate::specs::Distinct::mark_of))]
fn mark_of(key: u64) -> usize
    ensures { (result ≡ mark_of key) × (result < mark_count) }
{
    (key % (MARKS as u64)) as usize
}

#[tactic(auto, unfolding(crate::specs::Distinct::next_mark, defs::specs::Choice::when))]
fn next_mark(mark: u8) -> u8
    ensures { result ≡ next_mark mark }
{
    if mark == 0 { 1 } else { AGAIN }
}

// The ports whose mark was left again decide: once they are sorted, two that are the same are
// neighbours.
fn doubtful_distinct(ports: &[u64], used: &[u8], marks: &[u8; MARKS]) -> bool
    requires { (length ports.now ≤ max_slots) × (length used.now ≡ length ports.now) }
    ensures { result ≡ not (twice (chosen (again marks.now) (keys_to ports.now used.now (length ports.now)))) }
{
    let mut room = [0u64; limits::MAX_CONNECTIONS];
    let n = doubtful(ports, used, marks, &mut room);
    let keys = &mut room[..n];
    keys.sort_unstable();
    keys.is_sorted_by(|a, b| a < b)
}

// They are put into `keys`, in slot order; how many.
fn doubtful(ports: &[u64], used: &[u8], marks: &[u8; MARKS], keys: &mut [u64]) -> usize
    requires { (length ports.now ≤ length keys.old) × (length used.now ≡ length ports.now) }
    ensures { (result ≤ length keys.old) × (take result keys.new ≡ reverse (chosen (again marks.now) (keys_to ports.now used.now (length ports.now)))) }
{
    let mut n = 0;
    for (key, is_used) in ports.iter().zip(used) {
        if *is_used != 0 && marks[mark_of(*key)] == AGAIN {
            keys[n] = *key;
            n += 1;
        }
    }
    n
}
