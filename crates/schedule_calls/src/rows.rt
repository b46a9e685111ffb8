// A row of a schedule as what it asks for.
ghost use Rattle.std.specs.Prelude.{◌≡◌};
ghost use Rattle.std.specs.List.{list_all};
ghost use Rattle.schedule_calls.specs.Asked.{is_known_row, row_asked};

use ground_rules::Refusal;
use schedule_rules::ScheduleRow;

// What a row of a known kind asks for: an attention to a channel, or a step with a line number.
#[derive(Clone, Copy, PartialEq, Eq)]
pub(crate) enum RowKind {
    Attention(u32),
    Step(u32),
}

impl TryFrom<ScheduleRow> for RowKind {
    type Error = Refusal;

    ghost try_from_gives = { λ row result. result ≡ row_asked row };

    fn try_from(row: ScheduleRow) -> Result<Self, Refusal> {
        match row.kind {
            1 => Ok(RowKind::Attention(row.value)),
            2 => Ok(RowKind::Step(row.value)),
            _ => Err(Refusal::UnknownRow),
        }
    }
}

// Whether a row is of a known kind.
fn is_known_row(row: &ScheduleRow) -> bool
    ensures { result ≡ is_known_row row.now }
{
    RowKind::try_from(*row).is_ok()
}

// Whether every row is.
pub(crate) fn all_known(rows: &[ScheduleRow]) -> bool
    ensures { result ≡ list_all is_known_row rows.now }
{
    rows.iter().all(|row| is_known_row(row))
}
