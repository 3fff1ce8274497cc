//! Tables of words.

ghost use Rattle.std.specs.Prelude.{◌≡◌, find, option_map};
ghost use Rattle.std.specs.Str.{bytes_eq};
ghost use Rattle.wf_script.specs.Table.{rows_of};
ghost use Rattle.wf_script.specs.Words.{look_up};

/// The first row of a word in a table.
fn row_of<'a, 'b, T: Copy>(rows: &'a [(&'b [u8], T)], word: &[u8]) -> Option<&'a (&'b [u8], T)>
    ensures { option_map (λ row. row.now) result ≡ find (λ row. bytes_eq word.now row.0.now) rows.now }
{
    rows.iter().find(|row| word == row.0)
}

/// What stands beside a word in a table.
#[tactic(auto, using(crate::proofs::TableRow::look_up_in_rows))]
pub(crate) fn look_up<T: Copy>(rows: &[(&[u8], T)], word: &[u8]) -> Option<T>
    ensures { result ≡ look_up (rows_of rows.now) word.now }
{
    row_of(rows, word).map(|row| row.1)
}
