//! The body of a page: the length of its times, its times, and its values. Depends on `fault` and `rising`.
ghost use Rattle.std.specs.Prelude.{◌≡◌, ℕ, ◌<◌, ◌≤◌, ◌^◌, List, ◌++◌, All, FitsSigned, length, drop, true};
ghost use Rattle.std.specs.Prelude.{IfOk, IsErrOf};
ghost use Rattle.std.specs.Int.{w64};
ghost use Rattle.tsdb_base.specs.Fields.{number32};
ghost use Rattle.tsdb_base.specs.Values.{is_suitable};
ghost use Rattle.tsdb_pages.specs.Pages.{ArePoints, body as body_field, times_of as times_in, values_of as values_in};
ghost use Rattle.tsdb_pages.specs.Reading.{IsBody, IsNoBody};

use crate::decoder::decode;
use crate::encoder::encode_into;
use crate::fault::PageFault;
use std::alloc::Global;
use tsdb_base::{DataType, Encoding, Memory, Point, Time, Value, is_rising, suits};

/// How many bytes the length of the times has.
const LENGTH_BYTES: usize = 4;

/// The times of points.
fn times_of(alloc: Global, points: &[Point]) -> Result<Vec<Time>, Memory>
    ensures same { IfOk result (λ times. times.items ≡ times_in points.now) }
    ensures fit { IfOk result (λ times. All (FitsSigned w64) times.items) }
{
    let mut times = Vec::with_capacity(alloc, points.len())?;
    for point in points {
        times.push(point.time)?;
    }
    Ok(times)
}

/// Writes a length over the first four bytes.
fn set_length(number: u32, body: &mut [u8])
    requires { 4 ≤ length body.old }
    ensures { body.new ≡ number32 number ++ drop 4 body.old }
{
    body[..LENGTH_BYTES].copy_from_slice(&number.to_be_bytes());
}

/// The body of a page of 1 to 1,000 points of this type in order of time, in an encoding that suits the type.
pub fn write_page(
    alloc: Global,
    points: &[Point],
    data_type: DataType,
    encoding: Encoding,
) -> Result<Vec<u8>, Memory>
    requires suits { is_suitable data_type encoding ≡ true }
    requires points { ArePoints data_type points.now }
    ensures { IfOk result (λ bytes. bytes.items ≡ body_field encoding points.now) }
{
    let times = times_of(alloc, points)?;
    let mut body = vec![in alloc; 0u8; LENGTH_BYTES]?;
    enc_ts2diff::encode_i64_into(alloc, &times, &mut body)?;
    set_length((body.len() - LENGTH_BYTES) as u32, &mut body);
    encode_into(alloc, data_type, encoding, points, &mut body)?;
    Ok(body)
}

/// The bytes of the times, and those of the values.
fn split(body: &[u8]) -> Result<(&[u8], &[u8]), PageFault>
    ensures short { IfOk result (λ parts. length parts.0.now < 2 ^ 32) }
    ensures found { IfOk result (λ parts. body.now ≡ number32 (length parts.0.now) ++ parts.0.now ++ parts.1.now) }
    ensures bad { IsErrOf result PageFault.Bad → (times values : List ℕ) → length times < 2 ^ 32 →
        body.now ≡ number32 (length times) ++ times ++ values → ⊥ }
{
    if body.len() < LENGTH_BYTES {
        return Err(PageFault::Bad);
    }
    let (length, parts) = body.split_at(LENGTH_BYTES);
    let length = u32::from_be_bytes([length[0], length[1], length[2], length[3]]) as usize;
    if parts.len() < length {
        return Err(PageFault::Bad);
    }
    Ok(parts.split_at(length))
}

/// Each value at its time.
fn join(alloc: Global, times: Vec<Time>, values: Vec<Value>) -> Result<Vec<Point>, Memory>
    requires { length times.items ≡ length values.items }
    ensures times { IfOk result (λ points. times_in points.items ≡ times.items) }
    ensures values { IfOk result (λ points. values_in points.items ≡ values.items) }
{
    let mut points = Vec::with_capacity(alloc, times.len())?;
    for value in values {
        let time = times[points.len()];
        points.push(Point { time, value })?;
    }
    Ok(points)
}

/// The points of the page with this body. It is `Bad` exactly where no page of 1 to 1,000 points of the type in order of
/// time has the body, so also where the encoding does not suit the type.
pub fn read_page(
    alloc: Global,
    body: &[u8],
    data_type: DataType,
    encoding: Encoding,
) -> Result<Vec<Point>, PageFault>
    ensures found { IfOk result (λ points. IsBody data_type encoding body.now points.items) }
    ensures bad { IsErrOf result PageFault.Bad → IsNoBody data_type encoding body.now }
{
    if !suits(data_type, encoding) {
        return Err(PageFault::Bad);
    }
    let (times, values) = split(body)?;
    let times = enc_ts2diff::decode_i64(alloc, times)?;
    let values = decode(alloc, data_type, encoding, values)?;
    if times.is_empty() || times.len() != values.len() {
        return Err(PageFault::Bad);
    }
    let points = join(alloc, times, values)?;
    if !is_rising(&points) {
        return Err(PageFault::Bad);
    }
    Ok(points)
}
