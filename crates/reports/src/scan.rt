// Reports in the order of the rows: one pass along their status words takes them all.
ghost use Rattle.std.specs.Prelude.{◌≡◌};
ghost use Rattle.reports.specs.Scan.{shown_from, report_from};
ghost use Rattle.rows.specs.Store.{store_of};
ghost use Rattle.rows.specs.Table.{read_rows};

use crate::{PlacedReport, status};
use models::Refusal;
use session::{InFlight, Session, start};

// The first row from `place` on that has a report.
fn first_shown(rows: &[u64], flight: InFlight, place: u64) -> Option<usize>
    ensures { result ≡ shown_from flight place (read_rows rows.now) }
{
    (place as usize..rows::count(rows)).find(|i| status::is_shown(rows, *i, flight))
}

// The first report of a row at or after `place`. Refuses by 3 if the rows have not the session's size.
pub fn report_from(
    session: Session,
    rows: &[u64],
    place: u64,
) -> Result<Option<PlacedReport>, Refusal>
    ensures { result ≡ report_from place session (store_of rows.now) }
{
    start::rows_sized(session, rows.len())?;
    let shown = first_shown(rows, session.in_flight, place);
    Ok(shown.map(|i| PlacedReport {
        place: i as u64,
        report: rules::report_of(rows::read_row(rows, i)),
    }))
}
