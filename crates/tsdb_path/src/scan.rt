//! The reading of bytes: from the left, part by part between the dots. It depends on `fault`.
ghost use Rattle.std.specs.Prelude.{◌≡◌, ◌≢◌, ℕ, ◌+◌, ◌-◌, ◌<◌, ◌≤◌, ◌↔◌, ◌==◌, length, take, drop, slice_index};
ghost use Rattle.std.specs.Prelude.{count_by, IsTrue, IfSome, IfNone, IfOk, OnOk, IfErr, OnErr, All};
ghost use Rattle.std.specs.Char.{is_ascii_digit};
ghost use Rattle.std.specs.Option.{option_copied};
ghost use Rattle.tsdb_path.specs.Nodes.{dot, parts, device_of, measurement_of, child_of, is_node_byte, IsNode, IsName};
ghost use Rattle.tsdb_path.specs.Nodes.{IsRooted, IsPath, node_count};
ghost use Rattle.tsdb_path.specs.Refusals.{HasFittingLength, RefusesPath, RefusesName, RefusesChild};
ghost use Rattle.tsdb_path.specs.Steps.{RefusesLength, IsFirstSplit, TakesNode, BeginsBadly};

use crate::PathFault;
use tsdb_base::limits::{MAX_NODES, MAX_PATH_BYTES};

pub(crate) const DOT: u8 = b'.';

const MAX_BYTES: usize = MAX_PATH_BYTES;

/// Whether all bytes are ASCII letters, digits and `_`.
fn has_node_bytes(bytes: &[u8]) -> bool
    ensures { IsTrue result ↔ All (λ b. IsTrue (is_node_byte b)) bytes.now }
{
    bytes
        .iter()
        .all(|byte| byte.is_ascii_alphanumeric() || *byte == b'_')
}

/// Whether all bytes are digits.
fn has_digits_alone(bytes: &[u8]) -> bool
    ensures { IsTrue result ↔ All (λ b. IsTrue (is_ascii_digit b)) bytes.now }
{
    bytes.iter().all(|byte| byte.is_ascii_digit())
}

/// Whether the bytes are a node; of no bytes all are digits.
fn is_node(bytes: &[u8]) -> bool
    ensures { IsTrue result ↔ IsNode bytes.now }
{
    has_node_bytes(bytes) && !has_digits_alone(bytes)
}

/// Where the first dot stands.
fn first_dot(bytes: &[u8]) -> Option<usize>
    ensures found { IfSome result (λ at. (at < length bytes.now) × (slice_index bytes.now at ≡ dot)) }
    ensures first { IfSome result (λ at. (k : ℕ) → k < at → slice_index bytes.now k ≢ dot) }
    ensures none { IfNone result ((k : ℕ) → k < length bytes.now → slice_index bytes.now k ≢ dot) }
{
    bytes.iter().position(|byte| *byte == DOT)
}

/// The part before the first dot, and the bytes behind that dot, where there is one.
fn split_first(bytes: &[u8]) -> (&[u8], Option<&[u8]>)
    ensures { IsFirstSplit bytes.now result.0.now (option_copied result.1) }
{
    match first_dot(bytes) {
        Some(end) => (&bytes[..end], Some(&bytes[end + 1..])),
        None => (bytes, None),
    }
}

/// Where `rest`, which is the end of `bytes`, begins.
fn place(bytes: &[u8], rest: &[u8]) -> u64
    requires { length rest.now ≤ length bytes.now }
    ensures { result ≡ length bytes.now - length rest.now }
{
    (bytes.len() - rest.len()) as u64
}

/// The bytes behind the first node of `rest`, which is the end of `bytes`, and its dot.
fn next_node<'a>(bytes: &[u8], rest: &'a [u8]) -> Result<Option<&'a [u8]>, PathFault>
    requires { length rest.now ≤ length bytes.now }
    ensures ok { IfOk result (λ more. TakesNode rest.now (option_copied more)) }
    ensures bad { OnErr result (BeginsBadly rest.now) }
    ensures place { IfErr result (λ fault. fault ≡ PathFault.BadNode (length bytes.now - length rest.now)) }
{
    let (node, more) = split_first(rest);
    if is_node(node) {
        Ok(more)
    } else {
        let at = place(bytes, rest);
        Err(PathFault::BadNode { at })
    }
}

/// Reads 1 to 16 nodes.
fn check_nodes(bytes: &[u8]) -> Result<(), PathFault>
    requires fits { HasFittingLength bytes.now }
    requires rooted { IsRooted (parts bytes.now) }
    ensures ok { OnOk result (IsPath bytes.now) }
    ensures err { IfErr result (RefusesPath bytes.now) }
{
    let mut rest = bytes;
    for _count in 0..MAX_NODES {
        match next_node(bytes, rest)? {
            Some(more) => rest = more,
            None => return Ok(()),
        }
    }
    next_node(bytes, rest)?;
    Err(PathFault::TooLong {
        at: place(bytes, rest),
    })
}

/// Whether there are 1 to 255 bytes.
fn check_length(bytes: &[u8]) -> Result<(), PathFault>
    ensures ok { OnOk result (HasFittingLength bytes.now) }
    ensures err { IfErr result (RefusesLength bytes.now) }
{
    if bytes.is_empty() {
        Err(PathFault::Empty)
    } else if bytes.len() > MAX_BYTES {
        Err(PathFault::TooLong { at: 255 })
    } else {
        Ok(())
    }
}

/// Whether the bytes are a path.
pub(crate) fn check_path(bytes: &[u8]) -> Result<(), PathFault>
    ensures ok { OnOk result (IsPath bytes.now) }
    ensures err { IfErr result (RefusesPath bytes.now) }
{
    check_length(bytes)?;
    let (first, _) = split_first(bytes);
    if first != b"root".as_slice() {
        return Err(PathFault::NotRoot);
    }
    check_nodes(bytes)
}

/// Whether the bytes are a name.
pub(crate) fn check_name(bytes: &[u8]) -> Result<(), PathFault>
    ensures ok { OnOk result (IsName bytes.now) }
    ensures err { IfErr result (RefusesName bytes.now) }
{
    check_length(bytes)?;
    if is_node(bytes) {
        Ok(())
    } else {
        Err(PathFault::BadNode { at: 0 })
    }
}

/// How many dots there are.
fn count_dots(bytes: &[u8]) -> usize
    ensures value { result ≡ count_by (λ b. b == dot) bytes.now }
    ensures within { result ≤ length bytes.now }
{
    bytes.iter().filter(|byte| **byte == DOT).count()
}

/// How many parts there are between dots.
pub(crate) fn count_nodes(bytes: &[u8]) -> u64
    requires { length bytes.now ≤ 255 }
    ensures { result ≡ node_count bytes.now }
{
    count_dots(bytes) as u64 + 1
}

/// Where the last dot stands, if there is one.
fn find_last_dot(bytes: &[u8]) -> Option<usize>
    ensures found { IfSome result (λ at. (at < length bytes.now) × (slice_index bytes.now at ≡ dot)) }
    ensures last { IfSome result (λ at. (k : ℕ) → at < k → k < length bytes.now → slice_index bytes.now k ≢ dot) }
    ensures none { IfNone result ((k : ℕ) → k < length bytes.now → slice_index bytes.now k ≢ dot) }
{
    bytes.iter().rposition(|byte| *byte == DOT)
}

/// Where the last dot stands.
pub(crate) fn last_dot(bytes: &[u8]) -> usize
    requires { 2 ≤ node_count bytes.now }
    ensures within { result < length bytes.now }
    ensures device { take result bytes.now ≡ device_of bytes.now }
    ensures measurement { drop (result + 1) bytes.now ≡ measurement_of bytes.now }
{
    find_last_dot(bytes).unwrap()
}

/// Whether the path takes the name as a further node.
pub(crate) fn check_child(path: &[u8], name: &[u8]) -> Result<(), PathFault>
    requires path { IsPath path.now }
    requires name { IsName name.now }
    ensures ok { OnOk result (IsPath (child_of path.now name.now)) }
    ensures err { IfErr result (RefusesChild path.now name.now) }
    ensures as_read { IfErr result (RefusesPath (child_of path.now name.now)) }
{
    if path.len() + 1 + name.len() > MAX_BYTES {
        return Err(PathFault::TooLong { at: 255 });
    }
    if count_nodes(path) == MAX_NODES as u64 {
        let at = path.len() as u64 + 1;
        return Err(PathFault::TooLong { at });
    }
    Ok(())
}
