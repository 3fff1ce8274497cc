//! The setup of a script: client 0's lines before the first line of another client.

ghost use Rattle.std.specs.Prelude.{◌≡◌, ◌≤◌, length};
ghost use Rattle.wf_turn.specs.Program.{setup_lines};

use wf_script::Line;

/// How many lines stand before the first line of a client other than 0.
pub(crate) fn setup_lines(lines: &[Line]) -> usize
    ensures count { result ≡ setup_lines lines.now }
    ensures within { result ≤ length lines.now }
{
    let mut at = 0;
    while at < lines.len() && lines[at].client == 0 {
        at += 1;
    }
    at
}
