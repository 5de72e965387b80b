//! The log that `make` makes.
ghost use Rattle.std.specs.Prelude.{◌≡◌, ◌++◌, ◌<◌, ◌≤◌, ◌^◌, length, IfOk, OnOk};
ghost use Rattle.sym_base.specs.declared.limits.TheConstants as limit;
ghost use Rattle.sym_top.specs.Making.{made_file, made_line, made_script, next_state};

use itoa::Buffer;
use std::alloc::Global;
use sym_base::NoMemory;

// The bytes of the header.
const HEADER_BYTES: usize = 8;

// The most bytes of the line of one of the first 1,000,000 records.
const LINE_BYTES: usize = 11;

// The generator's state after this one, which is below 2^31.
fn next_state(state: u64) -> u64
    requires { state < 2 ^ 32 }
    ensures state { result ≡ next_state state }
    ensures small { result < 2 ^ 31 }
{
    (state * 1_103_515_245 + 12_345) % 2_147_483_648
}

// Appends the line of a record.
fn push_line(into: &mut Vec<u8>, time: u64, user: u64) -> Result<(), NoMemory>
    ensures { OnOk result (into.new.items ≡ into.old.items ++ made_line time user) }
{
    let mut buffer = Buffer::new();
    into.extend_from_slice(buffer.format(time).as_bytes())?;
    into.extend_from_slice(b",u")?;
    into.extend_from_slice(buffer.format(user).as_bytes())?;
    into.extend_from_slice(b"\n")?;
    Ok(())
}

/// The log of so many records, drawn from this seed. The memory of up to 1,000,000 records is taken
/// at once.
pub(crate) fn made_file(alloc: Global, records: u32, seed: u32) -> Result<Vec<u8>, NoMemory>
    ensures { IfOk result (λ file. file.items ≡ made_file records seed) }
{
    let mut text = Vec::with_capacity(alloc, HEADER_BYTES + LINE_BYTES * records as usize)?;
    text.extend_from_slice(b"ts,user\n")?;
    let mut state = u64::from(seed);
    let mut time: u64 = 0;
    'records: for _made in 0..records {
        state = next_state(state);
        let draw = state / 65_536;
        time += draw % 8;
        push_line(&mut text, time, draw / 8 % 10)?;
    }
    Ok(text)
}

// The script that is run over the log: the sessions of each user.
const SCRIPT: &[u8] = b"field ts: num;
field user: word;
group user;
state last: hold(num = 0);
state n: int [0..1000] = 0;
state done: nums [0..1000];
test gap(h: num, t: num) = t - h > 30;
update {
  if gap(last, ts) { push done n; n = 1; } else { n = n + 1; }
  keep last(ts);
}
report { sessions = count(done); open = n; longest = max(done); }
";

/// The script that is run over the log: the sessions of each user.
#[tactic(auto, unfolding(crate::specs::Making::made_script))]
pub(crate) fn made_script() -> &'static [u8]
    ensures text { result.now ≡ made_script }
    ensures fits { length result.now ≤ limit.SCRIPT_MAX }
{
    SCRIPT
}
