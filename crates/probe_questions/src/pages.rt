//! Pages of the rows of documents.
use hits_page::{Page, PageError, Pager, Picked, SortKey, is_too_deep, read_sort};
use json_walk::whole;
use probe_case::{Trial, list_or_none};
use probe_rows::{all_rows, put_scalar, schema_at};
use row_cells::{Row, Scalar, Schema};
use serde_json::Value;
use sqlite_items::Items;

fn put_values(values: &[Option<Scalar>], trial: &mut Trial) {
    trial.open("[");
    for value in values {
        match value {
            Some(value) => put_scalar(value, trial),
            None => trial.null(),
        }
    }
    trial.close("]");
}

/// The place of the row's document, its time and its values by the sort.
fn put_picked(picked: &Picked, trial: &mut Trial) {
    trial.open("[");
    trial.whole(i64::from(picked.index));
    trial.whole(picked.row.time);
    put_values(picked.sort.as_slice(), trial);
    trial.close("]");
}

fn put_page(page: &Page, trial: &mut Trial) {
    trial.ok();
    trial.open("{");
    trial.name("total");
    trial.wide(i128::from(page.total));
    trial.name("hits");
    trial.open("[");
    for picked in page.rows.as_slice() {
        put_picked(picked, trial);
    }
    trial.close("]}}");
}

fn put_error(error: PageError, trial: &mut Trial) {
    match error {
        PageError::WindowTooLarge { asked } => {
            trial.err("WindowTooLarge");
            trial.name("asked");
            trial.wide(i128::from(asked));
            trial.close("}");
        }
        PageError::BadSort { path } => {
            trial.err("BadSort");
            trial.name("path");
            trial.word(path.as_str());
            trial.close("}");
        }
        PageError::Shape => trial.refused("Shape"),
        PageError::NoMemory => trial.give_up(),
    }
}

/// Where the window of a row's index begins: the number at its place, or else 0.
fn start_at(starts: &[Value], place: usize) -> i64 {
    match starts.get(place) {
        Some(start) => whole(start).unwrap_or(0),
        None => 0,
    }
}

/// Offers each row with its place.
fn offer_all(
    pager: &mut Pager,
    schema: &Schema,
    rows: &[Row],
    starts: &[Value],
    trial: &mut Trial,
) {
    for (place, row) in rows.iter().enumerate() {
        let index = place.min(1_000_000) as u32;
        let start = start_at(starts, place);
        trial.need(pager.offer(trial.alloc, index, start, schema, row).is_ok());
    }
}

fn put_offered(pager: Pager, schema: &Schema, rows: &[Row], case: &Value, trial: &mut Trial) {
    let mut pager = pager;
    offer_all(
        &mut pager,
        schema,
        rows,
        list_or_none(case, "starts"),
        trial,
    );
    match pager.finish(trial.alloc) {
        Ok(page) => put_page(&page, trial),
        Err(_) => trial.give_up(),
    }
}

fn put_sorted(
    sort: Items<SortKey>,
    schema: &Schema,
    rows: &[Row],
    case: &Value,
    trial: &mut Trial,
) {
    let from = trial.number(case, "from").unsigned_abs();
    let size = trial.number(case, "size").unsigned_abs();
    match Pager::new(trial.alloc, sort, from, size) {
        Ok(pager) => put_offered(pager, schema, rows, case, trial),
        Err(error) => put_error(error, trial),
    }
}

fn ask(schema: &Schema, rows: &[Row], case: &Value, trial: &mut Trial) -> Option<()> {
    match read_sort(trial.alloc, case.get("sort")?, schema) {
        Ok(sort) => put_sorted(sort, schema, rows, case, trial),
        Err(error) => put_error(error, trial),
    }
    Some(())
}

/// The page of the rows of documents that a sort, a first hit and a number of hits ask, or why there is none.
pub fn page(case: &Value, trial: &mut Trial) -> Option<()> {
    let schema = schema_at(trial.alloc, case, "template")?;
    let rows = all_rows(trial.alloc, &schema, trial.list(case, "documents"))?;
    ask(&schema, rows.as_slice(), case, trial)
}

/// Whether a page ends too deep.
pub fn depth(case: &Value, trial: &mut Trial) -> Option<()> {
    let from = trial.number(case, "from").unsigned_abs();
    let size = trial.number(case, "size").unsigned_abs();
    trial.ok();
    trial.flag(is_too_deep(from, size));
    trial.close("}");
    Some(())
}
