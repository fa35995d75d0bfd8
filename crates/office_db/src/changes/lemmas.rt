//! Lemmas for proofs: what the types of an office guarantee about the cells that store it. The functions here do
//! nothing; only their contracts matter.
ghost use Rattle.std.specs.Prelude.{IsUtf8, ◌<◌, ◌≤◌, ◌^◌, All};
ghost use Rattle.sqlite_value.specs.declared.value.Value.TheVariants as value;
ghost use Rattle.office_schema.specs.cells.Cells.{IsTextOf, IsOptionalTextOf, IsWave, text_or_null, wave_value};
ghost use Rattle.office_schema.specs.cells.Columns.{move_columns};
ghost use Rattle.office_schema.specs.cells.Forms.{IsMoveRow};
ghost use Rattle.room_types.specs.Grammars.{is_person_id, is_room_code, is_key, is_name};

use room_types::text::{Grammar, Text};
use room_types::{Grade, Move, Wave, Word};

// Lemma: a text is UTF-8.
fn lemma_utf8(text: &str)
    ensures { IsUtf8 text.now }
{
    let _text = text;
}

/// Lemma: a `Text<G>` is in the grammar `G`. The function does nothing.
pub(crate) fn lemma_text<G: Grammar>(text: &Text<G>)
    ensures { IsTextOf G.is_text (value.Text text.now) }
{
    lemma_utf8(text.as_str());
}

/// Lemma: an optional `Text<G>`, if present, is in the grammar `G`. The function does nothing.
pub(crate) fn lemma_optional_text<G: Grammar>(text: &Option<Text<G>>)
    ensures { IsOptionalTextOf G.is_text (text_or_null text.now) }
{
    if let Some(text) = text {
        lemma_text(text);
    }
}

/// Lemma: a word fits in 64 bits. The function does nothing.
pub(crate) fn lemma_word(word: Word)
    ensures { word < 2 ^ 64 }
{
    let _value = word.value();
}

/// Lemma: a grade is at most 9. The function does nothing.
pub(crate) fn lemma_grade(grade: Grade)
    ensures { grade ≤ 9 }
{
    let _value = grade.value();
}

fn lemma_wave(wave: Wave)
    ensures { IsWave (wave_value wave) }
{
    match wave {
        Wave::Swap => {}
        Wave::Nth(_number) => {}
    }
}

/// Lemma: the row that stores a move has the form of a row of table `move`. The function does nothing.
pub(crate) fn lemma_move(moved: &Move)
    ensures { IsMoveRow (move_columns moved.now) }
{
    let _round = moved.round;
    lemma_text(&moved.person);
    lemma_optional_text(&moved.from);
    lemma_optional_text(&moved.to);
    lemma_wave(moved.wave);
}
