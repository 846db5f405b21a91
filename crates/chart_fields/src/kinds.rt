// The kinds of steps.
ghost use Rattle.std.specs.Prelude.{◌≡◌};
ghost use Rattle.definitions.specs.Charts.{step_length};
ghost use Rattle.chart_fields.specs.Kinds.{kind_tag};

#[derive(Clone, Copy, PartialEq, Eq)]
pub enum StepKind {
    // A group alone, that of the step's own number.
    Plain,
    // A step that names its group.
    Grouped,
}

impl StepKind {
    // The tag of its fields.
    pub fn tag(self) -> u8
        ensures { result ≡ kind_tag self }
    {
        match self {
            StepKind::Plain => 2,
            StepKind::Grouped => 3,
        }
    }

    // How long their bodies are.
    pub fn length(self) -> u16
        ensures { result ≡ step_length (kind_tag self) }
    {
        step_length(self.tag())
    }
}

// How long the body of a step with this tag is.
pub fn step_length(tag: u8) -> u16
    ensures { result ≡ step_length tag }
{
    if tag == StepKind::Grouped.tag() {
        return 10;
    }
    8
}
