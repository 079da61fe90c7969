use wa_base::Fix;

// A digest with one item more.
pub fn mixed(digest: u64, item: u64) -> u64 {
    (digest ^ item).wrapping_mul(1_099_511_628_211)
}

pub fn with_samples(digest: u64, samples: &[Fix]) -> u64 {
    samples.iter().fold(digest, |digest, sample| {
        mixed(digest, (*sample as i64 + 2_147_483_648) as u64)
    })
}
