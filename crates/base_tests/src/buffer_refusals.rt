use buffer_store::Store;
use std::test::Fail;
use wa_base::{Exc, Feature, Refusal};

const OUT_OF_RANGE: Option<Exc> = Some(Exc::NotSupported(None));

const LIMIT: Option<Exc> = Some(Exc::NotSupported(Some(Feature::BufferLimit)));

// Whether a store refuses these buffers, of which each has its channels, frames and rate, so.
fn refuses(store: &Store, cases: &[(u32, u64, u32, Option<Exc>)]) -> bool {
    for (channels, frames, rate, want) in cases {
        if store.creation_refusal(*channels, *frames, *rate) != *want {
            return false;
        }
    }
    true
}

#[test]
fn ranges_of_a_new_buffer(rt: HostRuntime) {
    let store = Store::new(rt.alloc());
    assert!(rt;
        refuses(
            &store,
            &[
                (0, 1, 48_000, OUT_OF_RANGE),
                (1, 1, 48_000, None),
                (32, 1, 48_000, None),
                (33, 1, 48_000, OUT_OF_RANGE),
                (1, 0, 48_000, OUT_OF_RANGE),
                (1, 1, 7_999, OUT_OF_RANGE),
                (1, 1, 8_000, None),
                (1, 1, 96_000, None),
                (1, 1, 96_001, OUT_OF_RANGE),
                (33, 134_217_728, 48_000, OUT_OF_RANGE),
            ]
        )
    );
}

#[test]
fn samples_of_all_buffers(rt: HostRuntime) -> Result<(), Fail> {
    let mut store = Store::new(rt.alloc());
    assert!(rt;
        refuses(
            &store,
            &[
                (32, 4_194_304, 48_000, None),
                (32, 4_194_305, 48_000, LIMIT),
                (1, 134_217_728, 48_000, None),
                (1, 134_217_729, 48_000, LIMIT),
                (1, u64::MAX, 48_000, LIMIT),
                (32, u64::MAX, 48_000, LIMIT),
            ]
        )
    );
    assert!(rt; store.create(2, 3, 48_000).is_ok());
    assert!(rt;
        refuses(
            &store,
            &[
                (1, 134_217_722, 48_000, None),
                (1, 134_217_723, 48_000, LIMIT),
                (32, 4_194_304, 48_000, LIMIT),
                (2, 67_108_861, 48_000, None),
                (2, 67_108_862, 48_000, LIMIT),
            ]
        )
    );
    let refused = store.create(1, 134_217_723, 48_000);
    assert!(rt; refused == Err(Refusal::Exc(Exc::NotSupported(Some(Feature::BufferLimit)))));
    assert!(rt; store.len() == 1);
    Ok(())
}
