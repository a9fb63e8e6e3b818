ghost use Rattle.cost.specs.Costs.{Arithmetic};
ghost use Rattle.planning.specs.Spaces.{Space, Lawful};

// What a search is made over: an arithmetic of costs and a space with its laws. It stands for any of them in what is promised of every run.
pub trait Setting {
    ghost arithmetic: { Arithmetic };

    ghost space: { Space };

    ghost lawful: { Lawful space };
}
