//! When a fold or a map through any shape has one result, the plain one.
ghost use Rattle.std.specs.Prelude.{◌≡◌, List, map};
ghost use Rattle.std.specs.List.{Contains};
ghost use Rattle.parallel_bridge.specs.Lists.{MapOf};
ghost use Rattle.parallel_bridge.specs.Folds.{FoldsInitPlainly, FoldsPlainly};
ghost use Rattle.parallel_bridge.specs.States.{FoldStep};

/// The law of lawful folds: however a list is cut into neighbouring segments, where the closures
/// keep the laws that `FoldLaws` names, the fold is the plain one from the left. It does nothing.
pub fn fold_law<X, R, I: Fn() -> R, F: Fn(R, X) -> R, G: Fn(R, R) -> R>(
    identity: &I,
    fold_op: &F,
    reduce_op: &G,
)
    ensures { FoldsPlainly (I.post identity.now) (F.post fold_op.now) (G.post reduce_op.now) }
{
    let _ = identity;
    let _ = fold_op;
    let _ = reduce_op;
}

/// The law of lawful folds with a state: where the closures keep the laws that `FoldLaws` names
/// whatever the state is, so that no step's result depends on it, the fold is the plain one from
/// the left. It does nothing.
pub fn fold_init_law<
    X,
    S,
    R,
    N: Fn() -> S,
    I: Fn() -> R,
    F: Fn(R, &mut S, X) -> R,
    G: Fn(R, R) -> R,
>(init: &N, identity: &I, fold_op: &F, reduce_op: &G)
    ensures { FoldsInitPlainly (N.post init.now) (I.post identity.now)
        (FoldStep (F.post fold_op.now)) (G.post reduce_op.now) }
{
    let _ = init;
    let _ = identity;
    let _ = fold_op;
    let _ = reduce_op;
}

/// The law of maps: where each item of the list has one result at most, that of a function, the
/// results are the function's. It does nothing.
pub fn map_law<X, T, F: Fn(X) -> T>(map_op: &F)
    ensures { (xs : List X) (ys : List T) → MapOf (F.post map_op.now) xs ys
        → (f : X → T) → ((x : X) (y : T) → Contains xs x → F.post map_op.now x y → y ≡ f x)
        → ys ≡ map f xs }
{
    let _ = map_op;
}
