//! The categories of characters.

use crate::inputs::Inputs;
use crate::reply::Reply;
use std::io;
use text_categories::Category;

/// The inputs are the letter of a group and that of a category, or a value's name, and then characters.
pub fn answer(reply: &mut Reply, name: &str, inputs: &Inputs) -> io::Result<bool> {
    match name {
        "Category::named" => {
            let letter = inputs.text(1).chars().next();
            let group = inputs.text(0).chars().next().unwrap_or(' ');
            contained(reply, Category::named(group, letter), inputs.text(2))?;
        }
        "Category::value_named" => {
            let letters: Vec<char> = inputs.text(0).chars().collect(reply.alloc)?;
            contained(
                reply,
                Category::value_named(letters.as_slice()),
                inputs.text(1),
            )?;
        }
        _ => return Ok(false),
    }
    Ok(true)
}

/// Whether each of the characters is in the category.
fn contained(reply: &mut Reply, category: Option<Category>, characters: &str) -> io::Result<()> {
    let Some(category) = category else {
        return reply.word("none");
    };
    for c in characters.chars() {
        reply.shown(category.contains(c))?;
    }
    Ok(())
}
