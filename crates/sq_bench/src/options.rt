//! What is called.
use sq_base::name::QueueName;
use sq_model::options::Options;

/// A queue has so many homes, of which a receive looks at two.
pub fn options(homes: u64) -> Options {
    Options {
        homes: homes.clamp(1, 16) as u32,
        sample: homes.clamp(1, 2) as u32,
        queues: 64,
        rows: 1_048_576,
        flights: 120_000,
        transit: 10_000,
        seed: 1,
    }
}

/// The name of the queue of a number.
pub fn queue_name(number: u64) -> Option<QueueName> {
    let digit = (number % 10) as u8;
    QueueName::new(&[b'q', b'0' + digit])
}
