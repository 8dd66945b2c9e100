//! Uses every public item that users of the layer rely on, by its name and signature, so that none
//! is renamed, narrowed or removed unseen.

mod calls;
mod numbers;
mod parts;
mod records;
mod types;

#[test]
fn records_have_their_fields(rt: HostRuntime) {
    assert!(rt; records::all_records());
}

#[test]
fn numbers_have_their_values(rt: HostRuntime) {
    assert!(rt; numbers::all_numbers());
}

#[test]
fn values_have_their_types(rt: HostRuntime) {
    assert!(rt; types::all_values());
}

#[test]
fn calls_have_their_defaults(rt: HostRuntime) {
    assert!(rt; calls::all_defaults());
}

#[test]
fn servers_have_their_parts(rt: HostRuntime) {
    assert!(rt; parts::all_parts());
}
