//! Schemas, rows and cells, shown.
use fold_law::{Parts, Rise};
use probe_case::Trial;
use row_cells::{Cell, Field, Row, Scalar, Schema};

/// A field as path, type and role.
fn put_field(field: &Field, trial: &mut Trial) {
    let shown = format!(in trial.alloc;
        "{} {:?} {:?}",
        field.path.as_str(),
        field.kind,
        field.role
    );
    match shown {
        Ok(shown) => trial.word(shown.as_str()),
        Err(_) => trial.give_up(),
    }
}

fn put_fields(fields: &[Field], trial: &mut Trial) {
    trial.open("[");
    for field in fields {
        put_field(field, trial);
    }
    trial.close("]");
}

fn put_places(places: &[u32], trial: &mut Trial) {
    trial.open("[");
    for place in places {
        trial.whole(i64::from(*place));
    }
    trial.close("]");
}

/// A schema's fields and the places of its routing fields.
pub fn put_schema(schema: &Schema, trial: &mut Trial) {
    trial.open("{");
    trial.name("fields");
    put_fields(schema.fields.as_slice(), trial);
    trial.name("routing");
    put_places(schema.routing.as_slice(), trial);
    trial.close("}");
}

pub fn put_scalar(value: &Scalar, trial: &mut Trial) {
    match value {
        Scalar::Whole(number) => trial.whole(*number),
        Scalar::Flag(flag) => trial.flag(*flag),
        Scalar::Word(text) => trial.word(text.as_str()),
    }
}

fn put_scalars(values: &[Scalar], trial: &mut Trial) {
    trial.open("[");
    for value in values {
        put_scalar(value, trial);
    }
    trial.close("]");
}

/// First value, last value and increase.
pub fn put_rise(rise: &Rise, trial: &mut Trial) {
    trial.open("[");
    trial.whole(rise.first);
    trial.whole(rise.last);
    trial.wide(rise.increase);
    trial.close("]");
}

/// Least, greatest, sum and number of values.
pub fn put_parts(parts: &Parts, trial: &mut Trial) {
    trial.parts(parts.min, parts.max, parts.sum, parts.count);
}

fn put_present(cell: &Cell, trial: &mut Trial) {
    match cell {
        Cell::Absent => {}
        Cell::One(value) => put_scalar(value, trial),
        Cell::Many(values) => put_scalars(values.as_slice(), trial),
        Cell::Gauge(parts) => put_parts(parts, trial),
        Cell::Rise(rise) => put_rise(rise, trial),
    }
}

fn kind_of(cell: &Cell) -> &'static str {
    match cell {
        Cell::Absent => "absent",
        Cell::One(_) => "one",
        Cell::Many(_) => "many",
        Cell::Gauge(_) => "gauge",
        Cell::Rise(_) => "rise",
    }
}

/// A cell that is present: at its path what is in it, under the name of its kind.
fn put_cell(field: &Field, cell: &Cell, trial: &mut Trial) {
    if matches!(cell, Cell::Absent) {
        return;
    }
    trial.name(field.path.as_str());
    trial.open("{");
    trial.name(kind_of(cell));
    put_present(cell, trial);
    trial.close("}");
}

/// The cells that are present.
pub fn put_cells(fields: &[Field], cells: &[Cell], trial: &mut Trial) {
    trial.open("{");
    for (field, cell) in fields.iter().zip(cells) {
        put_cell(field, cell, trial);
    }
    trial.close("}");
}

/// A row: key, time, number of documents and cells.
pub fn put_row(schema: &Schema, row: &Row, trial: &mut Trial) {
    trial.open("{");
    trial.name("key");
    trial.hex(row.key.bytes());
    trial.name("time");
    trial.whole(row.time);
    trial.name("count");
    trial.wide(i128::from(row.count));
    trial.name("cells");
    put_cells(schema.fields.as_slice(), row.cells.as_slice(), trial);
    trial.close("}");
}

/// The answer of a call that gave a row.
pub fn ok_row(schema: &Schema, row: &Row, trial: &mut Trial) {
    trial.ok();
    put_row(schema, row, trial);
    trial.close("}");
}

/// The answer of a call that gave rows.
pub fn ok_rows(schema: &Schema, rows: &[Row], trial: &mut Trial) {
    trial.ok();
    trial.open("[");
    for row in rows {
        put_row(schema, row, trial);
    }
    trial.close("]}");
}
