// The whole blocks of a message, taken in one after another.
ghost use Rattle.std.specs.Prelude.{◌≡◌, ℕ, ◌*◌, ◌/◌, ◌%◌, ◌^◌, ◌<◌, List, length, drop};
ghost use Rattle.blocks.specs.Blocks.{absorb};

// How a hash function takes in a block of N bytes.
pub trait TakeBlock<const N: usize> {
    type State: Copy;

    // What a block makes of a state.
    ghost step: { Self.State → List ℕ → Self.State };

    fn take_block(state: Self::State, block: &[u8; N]) -> Self::State
        ensures { result ≡ step state block.now };

    ghost some: { 0 < N };

    ghost fits: { N < 2 ^ 63 };
}

// The state `start` after the whole blocks of `message`, and the rest, which fills no block.
pub fn take_blocks<H: TakeBlock<N>, const N: usize>(
    start: H::State,
    message: &[u8],
) -> (H::State, &[u8])
    ensures state { result.0 ≡ absorb H.step N (length message.now / N) message.now start }
    ensures rest { result.1.now ≡ drop (length message.now / N * N) message.now }
    ensures short { length result.1.now ≡ length message.now % N }
{
    let (blocks, rest) = message.as_chunks::<N>();
    let mut state = start;
    for block in blocks {
        state = H::take_block(state, block);
    }
    (state, rest)
}
