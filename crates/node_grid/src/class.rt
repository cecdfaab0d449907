/// How a node stands in one period: what its frames may do to the others.
///
/// Benign, symmetric and asymmetric faults are those of Thambidurai and Park (1988); `J` is this
/// project's own.
#[derive(Clone, Copy, PartialEq, Eq)]
pub enum Class {
    /// Nonfaulty: sound, and not restarting in the period.
    N,
    /// Joining: sound, and restarting in the period; it is counted as benign.
    J,
    /// Benign: every receiver of every one of its frames sees that the frame is faulty.
    B,
    /// Symmetric: every receiver of a frame of it gets the same.
    S,
    /// Asymmetric: it may tell each receiver something else.
    A,
}
