//! How many events a script makes at most.

ghost use Rattle.std.specs.Prelude.{◌≡◌, ◌*◌, ◌≤◌, length};
ghost use Rattle.wf_turn.specs.Quota.{line_quota, quota, quota_of, quota_of_all};

use wf_script::{Line, MOST_LINES, Script, Verb};

/// How many events a line makes at most.
fn line_quota(verb: &Verb) -> u32
    ensures count { result ≡ line_quota verb.now }
    ensures most { result ≤ 40 }
{
    match verb {
        Verb::Tick => 40,
        Verb::Frame { .. } | Verb::Compose { .. } | Verb::TryCompose { .. } => 2,
        Verb::Paint(_) => 0,
        _ => 1,
    }
}

/// How many events a line makes at most, if it is a client's.
fn quota_of(client: u8, line: &Line) -> u32
    ensures count { result ≡ quota_of client line.now }
    ensures most { result ≤ 40 }
{
    if line.client == client {
        line_quota(&line.verb)
    } else {
        0
    }
}

/// How many events these lines make at most that are a client's.
fn quota_in(lines: &[Line], client: u8) -> u32
    requires few { length lines.now ≤ MOST_LINES }
    ensures count { result ≡ quota lines.now client }
    ensures most { result ≤ 40 * MOST_LINES }
{
    let mut sum = 0;
    for line in lines {
        sum += quota_of(client, line);
    }
    sum
}

/// Returns how many events the lines of a client make at most: 40 for a `tick`, 2 for a `frame`, a `compose` or a `trycompose`,
/// none for a `paint`, and one for any other line.
pub fn quota(script: &Script, client: u8) -> u32
    ensures count { result ≡ quota script.now.lines client }
    ensures most { result ≤ 40 * MOST_LINES }
{
    quota_in(script.lines(), client)
}

/// How many events these lines make at most, of whatever client. They are gone through once.
pub(crate) fn quota_of_all(lines: &[Line]) -> usize
    requires few { length lines.now ≤ MOST_LINES }
    ensures { result ≡ quota_of_all lines.now }
{
    let mut sum = 0;
    for line in lines {
        sum += line_quota(&line.verb) as usize;
    }
    sum
}
