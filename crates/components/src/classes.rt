//! Labels of which some are one class: disjoint sets.
//!
//! Each label leads to a lesser one of its class, or stands for the class itself (Galler and Fischer, 1964).
//! On the way to that one each second step is shortened (path halving: Tarjan and van Leeuwen, 1984).

ghost use Rattle.std.specs.Prelude.{◌≡◌, ◌≢◌, ◌<◌, length};
ghost use Rattle.components.specs.Classes.{AreMerged, IsForest, SameRoots, root_of};

/// The label that stands for the class of this one.
pub(crate) fn root(classes: &[u32], label: u32) -> u32
    requires forest { IsForest classes.now }
    requires label { label < length classes.now }
    ensures { result ≡ root_of classes.now label }
{
    let mut l = label;
    while classes[l as usize] != l {
        l = classes[l as usize];
    }
    l
}

/// The same, with shorter ways for later.
fn find(classes: &mut [u32], label: u32) -> u32
    requires forest { IsForest classes.old }
    requires label { label < length classes.old }
    ensures root { result ≡ root_of classes.old label }
    ensures forest { IsForest classes.new }
    ensures same { SameRoots classes.old classes.new }
{
    let mut l = label;
    while classes[l as usize] != l {
        let next = classes[classes[l as usize] as usize];
        classes[l as usize] = next;
        l = next;
    }
    l
}

/// Makes the classes of two labels one.
pub(crate) fn unite(classes: &mut [u32], a: u32, b: u32)
    requires forest { IsForest classes.old }
    requires a { a < length classes.old }
    requires b { b < length classes.old }
    requires some_a { a ≢ 0 }
    requires some_b { b ≢ 0 }
    ensures forest { IsForest classes.new }
    ensures merged { AreMerged (root_of classes.old) (root_of classes.new) a b }
{
    let a = find(classes, a);
    let b = find(classes, b);
    if a < b {
        classes[b as usize] = a;
    } else {
        classes[a as usize] = b;
    }
}

/// Makes each label lead to the one that stands for its class.
pub(crate) fn flatten(classes: &mut [u32])
    requires { IsForest classes.old }
    ensures forest { IsForest classes.new }
    ensures same { SameRoots classes.old classes.new }
{
    for l in 0..classes.len() {
        classes[l] = classes[classes[l] as usize];
    }
}
