// Where a text or a call was refused, and why.
ghost use Rattle.std.specs.Prelude.{◌≡◌};
ghost use Rattle.interfaces.specs.Numbers.{layer_number, layer_word};
ghost use Rattle.interfaces.specs.Faults.{fault_at, refusal_of, form_refusal, text_refusal, state_refusal, call_refusal};

use crate::code::Code;

// The part of the chest that refused.
#[derive(Clone, Copy, Debug, PartialEq, Eq)]
pub enum Layer {
    Text = 1,
    State = 2,
    Call = 3,
}

// A layer's number.
impl From<Layer> for u8 {
    ghost from_gives = { λ layer n. n ≡ layer_number layer };

    fn from(layer: Layer) -> u8 {
        layer as u8
    }
}

impl Layer {
    // The word that stands for the layer in a program's output.
    pub fn word(self) -> &'static [u8]
        ensures { result.now ≡ layer_word self }
    {
        match self {
            Layer::Text => b"text",
            Layer::State => b"state",
            Layer::Call => b"call",
        }
    }
}

// A refusal whose line is not known yet.
#[derive(Clone, Copy, Debug, PartialEq, Eq)]
pub struct Refusal {
    pub layer: Layer,
    pub code: Code,
}

impl Refusal {
    fn of(layer: Layer, code: Code) -> Refusal
        ensures { result ≡ refusal_of layer code }
    {
        Refusal { layer, code }
    }

    // A line that no word's form allows.
    pub fn form() -> Refusal
        ensures { result ≡ form_refusal }
    {
        Refusal::text(Code::Value)
    }

    pub fn text(code: Code) -> Refusal
        ensures { result ≡ text_refusal code }
    {
        Refusal::of(Layer::Text, code)
    }

    pub fn call(code: Code) -> Refusal
        ensures { result ≡ call_refusal code }
    {
        Refusal::of(Layer::Call, code)
    }

    pub fn state(code: Code) -> Refusal
        ensures { result ≡ state_refusal code }
    {
        Refusal::of(Layer::State, code)
    }

    pub fn at(self, line: usize) -> Fault
        ensures { result ≡ fault_at line self }
    {
        Fault {
            line,
            layer: self.layer,
            code: self.code,
        }
    }
}

// A refusal with its line: from 1 within a text, 0 outside its lines.
#[derive(Clone, Copy, Debug, PartialEq, Eq)]
pub struct Fault {
    pub line: usize,
    pub layer: Layer,
    pub code: Code,
}
