// What joins the two parts of a type.
#[derive(Clone, Copy, PartialEq, Eq, Debug)]
pub enum Joint {
    Arrow,
    Product,
}
