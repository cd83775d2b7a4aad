// The entries of the C library, each under a plain name with a pointer and a length for each slice: a call of the one of its name in `griffeljol`.
ghost use Rattle.std.specs.Prelude.{◌≡◌, length};
ghost use Rattle.schema.specs.Outcome.{outcome, written};
ghost use Rattle.schema.specs.Rewriting.{rewrite_outcome, rewrite_written};
ghost use Rattle.differences.specs.Outcome.{compare_outcome, compare_written};
ghost use Rattle.c_answer.specs.Answers.{counted_answer, answer, left};
ghost use Rattle.c_sheets.specs.Comparison.{compared_answer};
ghost use Rattle.c_values.specs.Values.{column_type, reading, ordering};
ghost use Rattle.c_timestamps.specs.Timestamps.{Decoding, encoding};
ghost use Rattle.c_timestamps.specs.Int96.{from_int96};
ghost use Rattle.c_boxes.specs.Boxes.{bounding_box_of, Boxing, test_answer};
ghost use Rattle.int96.specs.Outcomes as int96;
ghost use Rattle.boxes.specs.Membership.{membership};

// Resolves a sheet into rows. The value is T, the number of its nodes.
#[unsafe(no_mangle)]
pub extern "C" fn griffeljol_resolve(edition: u32, sheet: &[u8], rows: &mut [u32]) -> u64
    ensures value { result ≡ counted_answer (outcome edition sheet.now (length rows.old)) }
    ensures rows_after { rows.new ≡ written (outcome edition sheet.now (length rows.old)) sheet.now rows.old }
{
    griffeljol::griffeljol_resolve(edition, sheet, rows)
}

// Rewrites a sheet with both annotations into the output from start on. The value is the number of bytes written.
#[unsafe(no_mangle)]
pub extern "C" fn griffeljol_rewrite(
    edition: u32,
    sheet: &[u8],
    out: &mut [u8],
    start: usize,
) -> u64
    ensures value { result ≡ counted_answer (rewrite_outcome edition sheet.now (length out.old) start) }
    ensures out_after { out.new ≡ rewrite_written (rewrite_outcome edition sheet.now (length out.old) start) sheet.now out.old start }
{
    griffeljol::griffeljol_rewrite(edition, sheet, out, start)
}

// Compares two sheets and writes the list of their differences. The value is the number of its entries. A refusal has besides the sheet
// at fault: 1 or 2, and 0 for neither.
#[unsafe(no_mangle)]
pub extern "C" fn griffeljol_compare(
    edition: u32,
    first: &[u8],
    second: &[u8],
    out: &mut [u8],
) -> u64
    ensures value { result ≡ compared_answer (compare_outcome edition first.now second.now (length out.old)) }
    ensures out_after { out.new ≡ compare_written (compare_outcome edition first.now second.now (length out.old)) first.now second.now out.old }
{
    griffeljol::griffeljol_compare(edition, first, second, out)
}

// Reads a value. The value of the answer is its case: 0 truth, 1 signed whole, 2 unsigned whole, 3 FLOAT, 4 DOUBLE, 5 bytes.
// Two numbers are written: its bits and 0, or start and length.
#[unsafe(no_mangle)]
pub extern "C" fn griffeljol_read(
    edition: u32,
    physical: u32,
    type_length: u32,
    kind: u32,
    p1: u32,
    p2: u32,
    value: &[u8],
    out: &mut [u64],
) -> u64
    ensures value { result ≡ answer (reading edition (column_type physical type_length kind p1 p2) value.now (length out.old)) }
    ensures out_after { out.new ≡ left (reading edition (column_type physical type_length kind p1 p2) value.now (length out.old)) out.old }
{
    griffeljol::griffeljol_read(edition, physical, type_length, kind, p1, p2, value, out)
}

// Orders two values. The value of the answer is 0 less, 1 equal, 2 greater or 3 unordered. A refusal has besides the value at
// fault: 1 or 2, and 0 for neither.
#[unsafe(no_mangle)]
pub extern "C" fn griffeljol_order(
    edition: u32,
    physical: u32,
    type_length: u32,
    kind: u32,
    p1: u32,
    p2: u32,
    a: &[u8],
    b: &[u8],
) -> u64
    ensures { result ≡ ordering edition (column_type physical type_length kind p1 p2) a.now b.now }
{
    griffeljol::griffeljol_order(edition, physical, type_length, kind, p1, p2, a, b)
}

// Writes the fields of a count: year, month, day, hour, minute, second, fraction. The value is 7.
#[unsafe(no_mangle)]
pub extern "C" fn griffeljol_decode(unit: u32, count: i64, fields: &mut [i64]) -> u64
    ensures { Decoding unit count fields.old result fields.new }
{
    griffeljol::griffeljol_decode(unit, count, fields)
}

// Writes the count of fields, of which there are seven in the order of decoding; further numbers are not looked at. The value is 1.
#[unsafe(no_mangle)]
pub extern "C" fn griffeljol_encode(unit: u32, fields: &[i64], count: &mut [i64]) -> u64
    ensures value { result ≡ answer (encoding unit fields.now (length count.old)) }
    ensures count_after { count.new ≡ left (encoding unit fields.now (length count.old)) count.old }
{
    griffeljol::griffeljol_encode(unit, fields, count)
}

// Writes the count of an INT96 value. The value is 1.
#[unsafe(no_mangle)]
pub extern "C" fn griffeljol_from_int96(value: &[u8], count: &mut [i64]) -> u64
    ensures value { result ≡ answer (from_int96 value.now (length count.old)) }
    ensures count_after { count.new ≡ left (from_int96 value.now (length count.old)) count.old }
{
    griffeljol::griffeljol_from_int96(value, count)
}

// Writes the INT96 value of a count. The value is 12.
#[unsafe(no_mangle)]
pub extern "C" fn griffeljol_to_int96(count: i64, value: &mut [u8]) -> u64
    ensures value { result ≡ counted_answer (int96.encoding (length value.old)) }
    ensures value_after { value.new ≡ int96.encoded count value.old }
{
    griffeljol::griffeljol_to_int96(count, value)
}

// Writes the box of points, whose coordinates stand in turn: x, y, x, y. A NaN does not count. Four numbers are written: xmin, xmax, ymin,
// ymax. The value is 4, or 0 where there is no box.
#[unsafe(no_mangle)]
pub extern "C" fn griffeljol_box(kind: u32, coordinates: &[f64], bounds: &mut [f64]) -> u64
    ensures { Boxing kind coordinates.now bounds.old result bounds.new }
{
    griffeljol::griffeljol_box(kind, coordinates, bounds)
}

// Tests whether a point is inside a box, which may go round in x. The value is 1 where it is, and 0 where it is not.
#[unsafe(no_mangle)]
pub extern "C" fn griffeljol_inside(
    kind: u32,
    xmin: f64,
    xmax: f64,
    ymin: f64,
    ymax: f64,
    x: f64,
    y: f64,
) -> u64
    ensures { result ≡ test_answer (membership kind (bounding_box_of xmin xmax ymin ymax) x y) }
{
    griffeljol::griffeljol_inside(kind, xmin, xmax, ymin, ymax, x, y)
}
