// What each of the 31 hooks takes and gives.
#![tactic(auto)]

ghost use Rattle.std.specs.Prelude.{◌≡◌, ◌<◌};
ghost use Rattle.hooks.specs.Hooks.{hook_shape};
ghost use Rattle.rule8_shapes.specs.Shapes.{shape};

// How many parameters, and whether there is a result.
#[derive(Clone, Copy)]
pub struct Shape {
    pub params: u32,
    pub result: bool,
}

const UNARY: Shape = Shape {
    params: 1,
    result: true,
};

const SETTER: Shape = Shape {
    params: 3,
    result: false,
};

const SHAPED: Shape = Shape {
    params: 3,
    result: true,
};

const BINARY: Shape = Shape {
    params: 2,
    result: true,
};

const SHAPES: [Shape; 31] = [
    UNARY, // 0 Neg
    UNARY, // 1 BitNot
    UNARY, // 2 Truthy
    UNARY, // 3 Iter
    UNARY, // 4 Len
    UNARY, // 5 Spawn
    UNARY, // 6 Abs
    SETTER, // 7 SetIndex
    SETTER, // 8 SetProp
    SHAPED, // 9 CallShape
    BINARY, BINARY, BINARY, BINARY, BINARY, BINARY, BINARY, BINARY, BINARY, BINARY, BINARY, BINARY,
    BINARY, BINARY, BINARY, BINARY, BINARY, BINARY, BINARY, BINARY, BINARY,
];

pub fn hook_shape(hook: u32) -> Shape
    requires { hook < 31 }
    ensures { shape result ≡ hook_shape hook }
{
    SHAPES[hook as usize]
}
