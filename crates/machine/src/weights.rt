//! How much stands on the way up from a class: where that is much, looks are dear.
use core_program::CoreClass;
use paths::ClassId;
use std::alloc::{AllocError as NoMemory, Global};

/// A look that passes at most so many classes and so many methods is cheap.
pub(crate) const CHEAP: usize = 64;

/// Whether a look up the line of a class is cheap.
fn is_cheap(classes: &[CoreClass], class: &CoreClass) -> bool {
    let mut at = class.above;
    let mut methods = class.method_count;
    for _ in 0..CHEAP {
        if methods > CHEAP {
            return false;
        }
        let Some(id) = at else { return true };
        let Some(above) = classes.get(id.0 as usize) else {
            return true;
        };
        methods = methods.saturating_add(above.method_count);
        at = above.above;
    }
    false
}

/// Whether a look up the line of some class isn't cheap.
fn is_deep(classes: &[CoreClass]) -> bool {
    for class in classes {
        if !is_cheap(classes, class) {
            return true;
        }
    }
    false
}

/// The weights of all classes, where some look is dear and there is memory; else none.
pub(crate) fn dear_weights(alloc: Global, classes: &[CoreClass]) -> Vec<usize> {
    if !is_deep(classes) {
        return Vec::new(alloc);
    }
    match weights(alloc, classes) {
        Ok(weights) => weights,
        Err(_) => Vec::new(alloc),
    }
}

/// How many classes and methods stand from each class on upwards, the class and its own methods among them.
fn weights(alloc: Global, classes: &[CoreClass]) -> Result<Vec<usize>, NoMemory> {
    let mut weights = vec![in alloc; 0; classes.len()]?;
    for place in 0..classes.len() {
        let weight = weigh(classes, weights.as_slice(), place);
        write_down(classes, weights.as_mut_slice(), place, weight);
    }
    Ok(weights)
}

/// The weight of a class, from those that are known of the classes above it; what isn't known is 0.
fn weigh(classes: &[CoreClass], known: &[usize], from: usize) -> usize {
    let mut at = Some(from);
    let mut weight: usize = 0;
    for _ in 0..classes.len() {
        let Some(place) = at else { return weight };
        let (Some(class), Some(told)) = (classes.get(place), known.get(place)) else {
            return weight;
        };
        if *told > 0 {
            return weight.saturating_add(*told);
        }
        weight = weight.saturating_add(class.method_count).saturating_add(1);
        at = class.above.map(|id| id.0 as usize);
    }
    weight
}

/// Writes down the weight of a class, and those of the classes above it that aren't known.
fn write_down(classes: &[CoreClass], known: &mut [usize], from: usize, weight: usize) {
    let mut at = Some(from);
    let mut weight = weight;
    for _ in 0..classes.len() {
        let Some(place) = at else { return };
        let Some(class) = classes.get(place) else {
            return
        };
        if place >= known.len() || known[place] > 0 {
            return;
        }
        known[place] = weight;
        weight = weight.saturating_sub(class.method_count).saturating_sub(1);
        at = class.above.map(|id| id.0 as usize);
    }
}

/// A copy of weights; none where there is no memory for it.
pub(crate) fn copied(alloc: Global, weights: &[usize]) -> Vec<usize> {
    let mut copy = Vec::new(alloc);
    let _ = copy.extend_from_slice(weights);
    copy
}

/// Whether looks end at the class above a class: between the two stands a multiple of what is cheap.
pub(crate) fn is_boundary(weights: &[usize], class: ClassId, above: ClassId) -> bool {
    match (weights.get(class.0 as usize), weights.get(above.0 as usize)) {
        (Some(weight), Some(less)) => *weight / CHEAP != *less / CHEAP,
        _ => true,
    }
}
